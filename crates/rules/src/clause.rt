// Clauses by number.
ghost use Rattle.std.specs.Prelude.{◌≡◌, ◌-◌, ◌≤◌, ◌<◌, length};
ghost use Rattle.dqbf.specs.Limits.{width_limit};
ghost use Rattle.tables.specs.Tables.{stretch, entry};
ghost use Rattle.rules.specs.Clauses.{is_unknown, Ranged};

use tables::{ClauseNumber, State, entries};

// Whether a clause number is 0 or above the count.
#[tactic(auto, using(std::proofs::lemmas::Bool::Decides::nat_tests), unfolding(crate::specs::Clauses::is_unknown))]
pub fn is_unknown(state: State, clause: ClauseNumber) -> bool
    ensures { result ≡ is_unknown state clause.0 }
{
    clause.0 == 0 || state.clauses < clause
}

// The clause with a number: a part of the literals.
pub fn clause_at<'a>(literals: &'a [i16], ends: &[u16], clause: ClauseNumber) -> &'a [i16]
    requires { Ranged literals.now ends.now clause.0 }
    ensures { result.now ≡ stretch (entry ends.now (clause.0 - 1)) (entry ends.now clause.0) literals.now }
{
    let range = entries::clause_range(ends, clause);
    let start = range.start;
    let end = range.end;
    &literals[start..end]
}
