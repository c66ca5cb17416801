// What the definitions and the proofs of several layers share. There is no code here: `specs/` and `proofs/` are the crate.
#![tactic(auto)]
