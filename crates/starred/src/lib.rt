// The starred examples of 01: specs/Starred.antt has the table, proofs/Agree.antt the result. No function.

#![tactic(auto)]
