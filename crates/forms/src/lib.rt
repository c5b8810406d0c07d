// The form of a line of formula text (document 01, "Formula text").
#![tactic(auto)]

pub mod form;
