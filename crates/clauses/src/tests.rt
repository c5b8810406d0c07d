// Tests of one clause.
ghost use Rattle.std.specs.Prelude.{◌≡◌, ◌<◌, ◌≤◌, MatchOption, length};
ghost use Rattle.dqbf.specs.Limits.{width_limit};
ghost use Rattle.dqbf.specs.Literal as Literal;
ghost use Rattle.clauses.specs.Places.{place_of};

// The place of a literal in a clause, if it stands there.
pub fn place_of(clause: &[i16], literal: i16) -> Option<usize>
    ensures { MatchOption result (place_of literal clause.now ≡ length clause.now)
        (λ i. (i ≡ place_of literal clause.now) × (i < length clause.now)) }
{
    for i in 0..clause.len() {
        let l = clause[i];
        if l == literal {
            return Some(i);
        }
    }
    None
}

// Whether two masks together pick every literal and no place beyond: their bits are those below the clause's length.
pub fn covers(clause: &[i16], left: u32, right: u32) -> bool
    requires { length clause.now ≤ width_limit }
    ensures { result ≡ Literal.covers left right clause.now }
{
    let every = (1u64 << clause.len()) - 1;
    u64::from(left | right) == every
}
