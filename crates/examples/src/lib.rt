// Document 01's starred examples: specs/Starred.antt has them in one table, proofs/Starred.antt the one claim that each holds.
// There is no code here.
#![tactic(auto)]
