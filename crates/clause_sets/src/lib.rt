// Dependency sets of parts of a clause, before they are written. `sets` has the words of the sets of the variables 1, 2, ..
#![tactic(auto)]

ghost use Rattle.std.specs.Prelude.{◌≡◌, ◌<◌, ◌≤◌, nat_abs, length};
ghost use Rattle.dqbf.specs.Limits.{width_limit};
ghost use Rattle.dqbf.specs.Literal as Literal;
ghost use Rattle.sets.specs.Words.{words_each, as_set, as_sets};
ghost use Rattle.clauses.specs.Places.{but_at};
ghost use Rattle.clause_sets.specs.Sets.{set_in, clause_set_in, InUse, PartOf};

// The set of a literal's variable.
fn set_of(literal: i16, sets: &[u64]) -> [u64; 4]
    requires { (0 < nat_abs literal) × (nat_abs literal ≤ length (as_sets words_each sets.now)) }
    ensures { as_set result ≡ set_in (as_sets words_each sets.now) (nat_abs literal) }
{
    sets::get(sets, usize::from(literal.unsigned_abs()) - 1)
}

// The set of a clause: the union of its literals'.
fn clause_set(clause: &[i16], sets: &[u64]) -> [u64; 4]
    requires { InUse (as_sets words_each sets.now) clause.now }
    ensures { as_set result ≡ clause_set_in (as_sets words_each sets.now) clause.now }
{
    let mut set = [0u64; 4];
    for l in clause {
        // by way of `more`: the prover does not cover a call's array that is laid in a variable of the loop
        let more = sets::union(set, set_of(*l, sets));
        set = more;
    }
    set
}

// The set of a clause without the literal at a place.
pub fn set_without(clause: &[i16], place: usize, sets: &[u64]) -> [u64; 4]
    requires { InUse (as_sets words_each sets.now) clause.now × (place < length clause.now) }
    ensures { as_set result ≡ clause_set_in (as_sets words_each sets.now) (but_at place clause.now) }
{
    let front = clause_set(&clause[..place], sets);
    sets::union(front, clause_set(&clause[place + 1..], sets))
}

// How many literals a part of a clause has, and its set.
#[derive(Clone, Copy, PartialEq, Eq)]
pub struct Part {
    pub count: usize,
    pub set: [u64; 4],
}

// The part that a mask picks, bit i the literal at place i. The mask loses its lowest bit each time.
pub fn measure_part(clause: &[i16], mask: u32, sets: &[u64]) -> Part
    requires { InUse (as_sets words_each sets.now) clause.now × (length clause.now ≤ width_limit) }
    ensures { PartOf (as_sets words_each sets.now) (Literal.pick mask clause.now) result }
{
    let mut count = 0;
    let mut set = [0u64; 4];
    let mut rest = mask;
    let mut at = mask.trailing_zeros() as usize;
    // no range: the next place is the lowest bit that the mask has left
    while at < clause.len() {
        // by way of `more`, as in `clause_set`
        let more = sets::union(set, set_of(clause[at], sets));
        set = more;
        count += 1;
        rest &= rest - 1;
        at = rest.trailing_zeros() as usize;
    }
    Part { count, set }
}
