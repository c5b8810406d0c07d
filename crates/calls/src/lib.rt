// The refutation theorem over load, step and run together. This crate has no function: the claim stands in specs/Statements, its proof in proofs.
#![tactic(auto)]
