// Decimal numerals (document 01, "Formula text"): a token as a number, and the numbers that a line lists before its closing 0.
#![tactic(auto)]

pub mod list;
pub mod number;
