// A decoded step record over the four lent tables, examined by its rule (document 01, "Step records").
#![tactic(auto)]

pub mod clause;
pub mod examine;
pub mod rules;
