// What the entries of `plot` promise, over plots, bytes and document 01's numbers: the canonical form of a payload, and what checking, asking and adding answer,
// each exactly when. Nothing to run.
#![tactic(auto)]
