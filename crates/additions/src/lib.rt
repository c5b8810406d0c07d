// What an accepted step adds to the four lent tables, with the last tests of its rule (document 01, "Numbers of refusal": 23, 24, 25, in the order of document 02, Note 5).
#![tactic(auto)]

pub mod adding;
