// What commands do on the model chip. There is no code here: `specs/` and `proofs/` are the crate.
#![tactic(auto)]
