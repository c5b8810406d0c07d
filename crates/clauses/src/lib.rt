// Tests of a clause, clauses by value, and the writers of new clauses over the tail of the literal table (document 01, "Step records").
// Each function is equated with its definition in the calculus, crate dqbf. The join of two clauses is in crate joins, their sets in clause_sets.
#![tactic(auto)]

ghost use Rattle.std.specs.Prelude.{◌≤◌};
ghost use Rattle.dqbf.specs.Limits.{width_limit};

use dqbf::limits::WIDTH_LIMIT;

pub mod by_value;
pub mod tests;
pub mod writing;

// A clause of at most 32 literals by value: the front of an array, since there is no heap. What stands behind the clause is never read.
#[derive(Clone, Copy)]
pub struct Held {
    literals: [i16; WIDTH_LIMIT],
    count: usize,
    ghost within: { count ≤ width_limit },
}
