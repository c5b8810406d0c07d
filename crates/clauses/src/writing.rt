// Writers of new clauses to the front of what they are lent, the tail of the literal table. Each answers how many literals it wrote.
ghost use Rattle.std.specs.Prelude.{[], ◌∷◌, ◌++◌, ◌+◌, ◌<◌, ◌≤◌, nat_abs, neg_ℤ, length};
ghost use Rattle.dqbf.specs.Limits.{width_limit};
ghost use Rattle.dqbf.specs.Literal as Literal;
ghost use Rattle.clauses.specs.Places.{but_at};
ghost use Rattle.clauses.specs.Writing.{Written};

// The clause.
pub fn write_clause(tail: &mut [i16], clause: &[i16]) -> usize
    requires { length clause.now ≤ length tail.old }
    ensures { Written clause.now tail.old tail.new result }
{
    tail[..clause.len()].copy_from_slice(clause);
    clause.len()
}

// The clause without the literal at a place, in one loop: where that literal stands is no branch, since the processor could not guess it.
pub fn write_without(tail: &mut [i16], clause: &[i16], place: usize) -> usize
    requires { (place < length clause.now) × (length clause.now ≤ length tail.old + 1) }
    ensures { Written (but_at place clause.now) tail.old tail.new result }
{
    let count = clause.len() - 1;
    for i in 0..count {
        tail[i] = clause[i + usize::from(place <= i)];
    }
    count
}

// A part of a fork: the literals that a mask picks, bit i the one at place i, and the new literal behind them. The mask loses its lowest bit each time.
fn write_part(tail: &mut [i16], clause: &[i16], mask: u32, new: i16) -> usize
    requires { (length clause.now ≤ width_limit) × (length (Literal.pick mask clause.now) < length tail.old) }
    ensures { Written (Literal.pick mask clause.now ++ (new ∷ [])) tail.old tail.new result }
{
    let mut width = 0;
    let mut rest = mask;
    let mut at = mask.trailing_zeros() as usize;
    // no range: the next place is the lowest bit that the mask has left
    while at < clause.len() {
        tail[width] = clause[at];
        width += 1;
        rest &= rest - 1;
        at = rest.trailing_zeros() as usize;
    }
    tail[width] = new;
    width + 1
}

// The two clauses of a fork, one behind the other: the left part with the new variable, the right part with its negation.
pub fn write_fork(tail: &mut [i16], clause: &[i16], left: u32, right: u32, variable: i16) -> usize
    requires { (length clause.now ≤ width_limit) × (length (Literal.pick left clause.now) + length (Literal.pick right clause.now) + 2 ≤ length tail.old)
        × (nat_abs variable < 32768) }
    ensures { Written ((Literal.pick left clause.now ++ (variable ∷ [])) ++ (Literal.pick right clause.now ++ (neg_ℤ variable ∷ [])))
        tail.old tail.new result }
{
    let count = write_part(tail, clause, left, variable);
    count + write_part(&mut tail[count..], clause, right, -variable)
}
