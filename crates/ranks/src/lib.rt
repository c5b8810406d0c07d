// The numbers of a line in ascending order, each once, and the literals of ranks (the calculus' `rank`: 2·x, or 2·x + 1 for the negation of x).
#![tactic(auto)]

mod insertion;
pub mod literals;
mod marks;
pub mod order;
mod rising;
