// Calls of the code on the model chip, by their own logs. There is no code here: `specs/` and `proofs/` are the crate.
#![tactic(auto)]
