// The customer's demands as one theorem over all layers: statements in specs/Demands.antt and
// specs/Requests.antt, proofs in the files of the same names. Nothing to run.
#![tactic(auto)]
