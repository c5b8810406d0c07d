// A text into the lent tables, line by line, each by its form (document 01, "Formula text").
#![tactic(auto)]

pub mod lines;
pub mod reading;
