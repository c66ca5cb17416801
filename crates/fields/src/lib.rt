// The rule of a field, of which jobs, tape and log are made. There is no code here: `specs/` has the rule, `proofs/` what it gives.
#![tactic(auto)]
