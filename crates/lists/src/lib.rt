// Laws on computed tests and on lists that the other crates cite. This crate has no function: its laws are in proofs/.
#![tactic(auto)]
