// A prefix line of a text into the lent tables (document 01, "Formula text"), with how far the lines have come.
#![tactic(auto)]

pub mod declarations;
pub mod progress;
