// Zeros: the test of entries, and the clearing of the stated sizes.
ghost use Rattle.std.specs.Prelude.{◌≡◌, true, [], ◌≤◌, length};
ghost use Rattle.tables.specs.Spread.{over, spread, blank, zero_state};
ghost use Rattle.tables.specs.WellFormed.{all_of, long};
ghost use Rattle.tables.specs.Lent.{tables_held, SameLoans};

use super::{LentMut, State};
use dqbf::limits::{CLAUSE_LIMIT, LITERAL_LIMIT, VARIABLE_LIMIT};

// Whether all entries have a value. Every entry is looked at, so that several can be compared at once.
pub fn all_are<T: PartialEq>(entries: &[T], value: &T) -> bool
    ensures { result ≡ all_of (λ entry. T.eq entry value.now) entries.now }
{
    let mut same = true;
    for entry in entries {
        same = same & (*entry == *value);
    }
    same
}

// The front of a table becomes one value.
fn fill_front<T: Clone + Drop>(entries: &mut [T], size: usize, value: T)
    requires room { size ≤ length entries.old }
    requires infallible { T.is_infallible value }
    requires same { (y : T) → T.is_clone value y → y ≡ value }
    ensures { entries.new ≡ over size value [] entries.old }
{
    entries[..size].fill(value);
}

// The stated sizes of all four tables become 0, and the state, as a refused formula leaves them.
pub fn clear(tables: &mut LentMut)
    requires { long (tables_held tables.old) ≡ true }
    ensures loans { SameLoans tables.old tables.new }
    ensures tables { tables_held tables.new ≡ spread blank (tables_held tables.old) }
    ensures state { tables.new.state ≡ zero_state }
{
    fill_front(tables.literals, LITERAL_LIMIT, 0);
    fill_front(tables.ends, CLAUSE_LIMIT, 0);
    fill_front(tables.sets, sets::TABLE_WORDS, 0);
    fill_front(tables.kinds, VARIABLE_LIMIT, 0);
    tables.state = State::default();
}
