// What the entries on a stand table promise: statements and proofs only, nothing to run.
#![tactic(auto)]
