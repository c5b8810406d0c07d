// Entries of the tables by clause and variable number.
ghost use Rattle.std.specs.Prelude.{◌≡◌, ◌-◌, ◌≤◌, ◌<◌, length};
ghost use Rattle.sets.specs.Words.{words_each, as_set, as_sets};
ghost use Rattle.tables.specs.Tables.{entry};

use super::{ClauseNumber, VariableNumber};
use std::ops::Range;

// Where a clause ends; 0 for number 0.
pub fn clause_end(ends: &[u16], clause: ClauseNumber) -> usize
    requires { clause.0 ≤ length ends.now }
    ensures { result ≡ entry ends.now clause.0 }
{
    let number = clause.0 as usize;
    if number == 0 {
        return 0;
    }
    let place = number - 1;
    ends[place] as usize
}

// A clause starts where the one before it ends.
pub fn clause_range(ends: &[u16], clause: ClauseNumber) -> Range<usize>
    requires { (0 < clause.0) × (clause.0 ≤ length ends.now) }
    ensures { (result.start ≡ entry ends.now (clause.0 - 1)) × (result.end ≡ entry ends.now clause.0) }
{
    let before = ClauseNumber(clause.0 - 1);
    let start = clause_end(ends, before);
    let end = clause_end(ends, clause);
    start..end
}

// The kind of a variable; 0 for a number with no entry.
pub fn kind_of(kinds: &[u8], variable: VariableNumber) -> u8
    ensures { result ≡ entry kinds.now variable.0 }
{
    let number = variable.0 as usize;
    if number == 0 {
        return 0;
    }
    let place = number - 1;
    if place < kinds.len() { kinds[place] } else { 0 }
}

// The dependency set of a variable; the empty set for a number with no entry.
pub fn set_of(sets: &[u64], variable: VariableNumber) -> [u64; 4]
    ensures { as_set result ≡ entry (as_sets words_each sets.now) variable.0 }
{
    let number = variable.0 as usize;
    if number == 0 {
        return [0, 0, 0, 0];
    }
    let place = number - 1;
    if place < sets.len() / 4 {
        return sets::get(sets, place);
    }
    [0, 0, 0, 0]
}
