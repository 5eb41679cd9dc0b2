// The mathematics of the code: definitions in specs/, theorems in proofs/. It has no function to run: the shift register that
// computes with these definitions is the crate `register`.
#![tactic(auto)]
