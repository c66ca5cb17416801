// The starred rows of the scope's table, proved in one list. There is no code here: `specs/` has the rows, `proofs/`
// that they hold.
#![tactic(auto)]
