// The lines of a formula, written one behind the other (document 02, Note 1).
#![tactic(auto)]

pub mod clauses;
pub mod prefix;
pub mod universals;
