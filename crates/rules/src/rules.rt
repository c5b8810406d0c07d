// The three rules (document 01, "Step records"), each with its tests in order. The sources of an accepted step are copied by value
// before the tail of the literals is lent to its writer: two parts of one slice cannot be lent together.
ghost use Rattle.std.specs.Prelude.{◌≡◌};
ghost use Rattle.dqbf.specs.Limits as Limits;
ghost use Rattle.dqbf.specs.Record as Record;
ghost use Rattle.dqbf.specs.Run.{examine};
ghost use Rattle.dqbf.specs.Refusal.{refusal_in};
ghost use Rattle.tables.specs.Tables.{model_in};
ghost use Rattle.tables.specs.Lent.{tables_held, SameLoans};
ghost use Rattle.additions.specs.Adding.{Holding, After};

use crate::clause;
use additions::adding;
use additions::adding::Split;
use clauses::{Held, tests};
use dqbf::literal;
use dqbf::refusal::Refusal;
use tables::{ClauseNumber, LentMut, VariableNumber, entries, kind};

// Resolution: 21, 22, 23, 24, 25.
pub fn resolve(
    first: ClauseNumber,
    second: ClauseNumber,
    pivot: i32,
    tables: &mut LentMut,
) -> Result<(), Refusal>
    requires { Holding (tables_held tables.old) tables.old.state }
    ensures loans { SameLoans tables.old tables.new }
    ensures kept { (tables.new.sets.now ≡ tables.old.sets.now) × (tables.new.kinds.now ≡ tables.old.kinds.now) }
    ensures after { After (tables_held tables.old) tables.old.state
        (examine Limits.tables (model_in (tables_held tables.old) tables.old.state) (Record.resolution first.0 second.0 pivot))
        (tables_held tables.new) tables.new.state (refusal_in result) }
{
    let lent = tables.view();
    if clause::is_unknown(lent.state, first) {
        return Err(Refusal::UnknownClause);
    }
    if clause::is_unknown(lent.state, second) {
        return Err(Refusal::UnknownClause);
    }
    let positive = literal::narrowed(pivot);
    let negative = literal::negated(positive);
    let x = clause::clause_at(lent.literals, lent.ends, first);
    let y = clause::clause_at(lent.literals, lent.ends, second);
    let Some(i) = tests::place_of(x, positive) else {
        return Err(Refusal::Absent);
    };
    let Some(j) = tests::place_of(y, negative) else {
        return Err(Refusal::Absent);
    };
    let left = Held::hold_without(x, i);
    let right = Held::hold_without(y, j);
    adding::add_resolvent(left.as_slice(), right.as_slice(), tables)
}

// Universal reduction: 21, 22, 26, 27, 25.
pub fn reduce(number: ClauseNumber, value: i32, tables: &mut LentMut) -> Result<(), Refusal>
    requires { Holding (tables_held tables.old) tables.old.state }
    ensures loans { SameLoans tables.old tables.new }
    ensures kept { (tables.new.sets.now ≡ tables.old.sets.now) × (tables.new.kinds.now ≡ tables.old.kinds.now) }
    ensures after { After (tables_held tables.old) tables.old.state
        (examine Limits.tables (model_in (tables_held tables.old) tables.old.state) (Record.reduction number.0 value))
        (tables_held tables.new) tables.new.state (refusal_in result) }
{
    let lent = tables.view();
    if clause::is_unknown(lent.state, number) {
        return Err(Refusal::UnknownClause);
    }
    let reduced = literal::narrowed(value);
    let x = clause::clause_at(lent.literals, lent.ends, number);
    let Some(place) = tests::place_of(x, reduced) else {
        return Err(Refusal::Absent);
    };
    let variable = VariableNumber(literal::variable_of(reduced) as u32);
    if entries::kind_of(lent.kinds, variable) != kind::UNIVERSAL {
        return Err(Refusal::NotUniversal);
    }
    let set = entries::set_of(lent.sets, variable);
    let used = 4 * lent.state.variables.0 as usize;
    // a universal's set is one place: another literal's set has it if the union of them has
    let read = clause_sets::set_without(x, place, &lent.sets[..used]);
    if sets::inside(set, read) {
        return Err(Refusal::ReadByAnother);
    }
    let held = Held::hold(x);
    adding::add_reduced(held.as_slice(), place, tables)
}

// Fork: 21, 28, 29, 25.
pub fn fork(
    number: ClauseNumber,
    left: u32,
    right: u32,
    tables: &mut LentMut,
) -> Result<(), Refusal>
    requires { Holding (tables_held tables.old) tables.old.state }
    ensures loans { SameLoans tables.old tables.new }
    ensures after { After (tables_held tables.old) tables.old.state
        (examine Limits.tables (model_in (tables_held tables.old) tables.old.state) (Record.fork number.0 left right))
        (tables_held tables.new) tables.new.state (refusal_in result) }
{
    let lent = tables.view();
    if clause::is_unknown(lent.state, number) {
        return Err(Refusal::UnknownClause);
    }
    let x = clause::clause_at(lent.literals, lent.ends, number);
    if !tests::covers(x, left, right) {
        return Err(Refusal::Masks);
    }
    let used = 4 * lent.state.variables.0 as usize;
    let first = clause_sets::measure_part(x, left, &lent.sets[..used]);
    let second = clause_sets::measure_part(x, right, &lent.sets[..used]);
    if sets::inside(first.set, second.set) {
        return Err(Refusal::Comparable);
    }
    if sets::inside(second.set, first.set) {
        return Err(Refusal::Comparable);
    }
    let held = Held::hold(x);
    let set = sets::common(first.set, second.set);
    let split = Split {
        left,
        right,
        first: first.count,
        second: second.count,
        set,
    };
    adding::add_parts(held.as_slice(), split, tables)
}
