// A clause line of a text into the lent tables (document 01, "Formula text").
#![tactic(auto)]

pub mod clause;
