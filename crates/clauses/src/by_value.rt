// Clauses by value: the sources of a step are copied here before the tail of the table is lent to a writer.
ghost use Rattle.std.specs.Prelude.{◌≡◌, ◌<◌, ◌≤◌, length};
ghost use Rattle.dqbf.specs.Limits.{width_limit};
ghost use Rattle.clauses.specs.Places.{but_at};
ghost use Rattle.clauses.specs.Held.{held};

use crate::{Held, writing};
use dqbf::limits::WIDTH_LIMIT;

impl Held {
    // The clause. The array starts as ones, since the compiler clears zeros by a call of their own.
    pub fn hold(clause: &[i16]) -> Held
        requires { length clause.now ≤ width_limit }
        ensures { held result ≡ clause.now }
    {
        let mut literals = [1i16; WIDTH_LIMIT];
        let count = writing::write_clause(&mut literals, clause);
        Held { literals, count }
    }

    // The clause without the literal at a place.
    pub fn hold_without(clause: &[i16], place: usize) -> Held
        requires { (length clause.now ≤ width_limit) × (place < length clause.now) }
        ensures { held result ≡ but_at place clause.now }
    {
        let mut literals = [0i16; WIDTH_LIMIT];
        let count = writing::write_without(&mut literals, clause, place);
        Held { literals, count }
    }

    // The clause that is held.
    pub fn as_slice(&self) -> &[i16]
        ensures { result.now ≡ held self.now }
    {
        &self.literals[..self.count]
    }
}
