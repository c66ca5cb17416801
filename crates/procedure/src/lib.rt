// Setting up and both cell readings, as programs over transfers. There is no code here: `specs/` and `proofs/` are the crate.
#![tactic(auto)]
