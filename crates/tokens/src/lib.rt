// Where the lines of a text and the tokens of a line stand (document 01, "Formula text").
#![tactic(auto)]

pub mod text;
