// What every public function keeps of the record that it gives back. There is no code here: `specs/` and `proofs/` are the crate.
#![tactic(auto)]
