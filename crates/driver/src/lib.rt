// The calls of the solver's C++ driver, over its own byte buffers (document 01, "The solver's driver is C++"): include/kefthrun.h declares them.
// Buffers are decoded into local tables, the library's call runs on these, and what it changes is written back.
#![tactic(auto)]

pub mod clause;
pub mod interface;
pub mod load;
pub mod run;
pub mod show;
pub mod variable;
pub mod write;
