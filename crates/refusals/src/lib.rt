// What a refused call leaves in lent memory. This crate has no function: the claims stand on one page, specs/Statements.antt, their proofs in proofs.
#![tactic(auto)]
