// Demand 3: what a cut setting up leaves, and that it can be done again. The code that promises it is in `recovered`.
// There is no code here: `specs/` and `proofs/` are the crate.
#![tactic(auto)]
