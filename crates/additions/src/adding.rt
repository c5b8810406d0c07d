// The last tests of each rule, and the clauses that an accepted step writes behind the last literal.
ghost use Rattle.std.specs.Prelude.{◌≡◌, [], ◌∷◌, ◌++◌, pos, negsuc, suc, ◌<◌, ◌≤◌, length, replicate};
ghost use Rattle.sets.specs.Words.{as_set};
ghost use Rattle.tables.specs.Tables.{model_in};
ghost use Rattle.tables.specs.Lent.{tables_held, SameLoans};
ghost use Rattle.dqbf.specs.Limits.{width_limit};
ghost use Rattle.dqbf.specs.Literal.{join, pick};
ghost use Rattle.dqbf.specs.Refusal.{refusal_in};
ghost use Rattle.clauses.specs.Places.{but_at};
ghost use Rattle.additions.specs.Adding.{Holding, After, One, Two, fitted, tested, Splits, joined_refusal, WrittenOrErased};

use clauses::writing;
use dqbf::limits::{LITERAL_LIMIT, WIDTH_LIMIT};
use dqbf::refusal::Refusal;
use joins::Joined;
use tables::{LentMut, State, adding};

// Whether a joined clause is a resolvent: no complementary literals, its width, room.
#[tactic(auto, using(std::proofs::lemmas::Bool::Decides::nat_tests), unfolding(crate::specs::Adding::joined_refusal))]
fn check_resolvent(joined: Joined, state: State) -> Result<(), Refusal>
    ensures { refusal_in result ≡ joined_refusal state joined.count joined.clash }
{
    if let Some(variable) = joined.clash {
        return Err(Refusal::Clash(variable));
    }
    if joined.count > WIDTH_LIMIT {
        return Err(Refusal::TooWide);
    }
    if state.is_full(1, joined.count as u32, 0) {
        return Err(Refusal::NoRoom);
    }
    Ok(())
}

// Writes a resolvent, the join of two clauses, over the tail, where zeros stand, and answers how many literals it has; one that is refused is erased again.
fn write_resolvent(
    tail: &mut [i16],
    first: &[i16],
    second: &[i16],
    state: State,
) -> Result<usize, Refusal>
    requires { tail.old ≡ replicate (length tail.old) (pos 0) }
    ensures { WrittenOrErased state (join first.now second.now) tail.old tail.new result }
{
    let joined = joins::write_join(tail, first, second);
    if let Err(refusal) = check_resolvent(joined, state) {
        joins::erase(tail, joined.count);
        return Err(refusal);
    }
    Ok(joined.count)
}

// A resolvent as a new clause, unless it is refused.
pub fn add_resolvent(first: &[i16], second: &[i16], tables: &mut LentMut) -> Result<(), Refusal>
    requires { Holding (tables_held tables.old) tables.old.state }
    ensures loans { SameLoans tables.old tables.new }
    ensures kept { (tables.new.sets.now ≡ tables.old.sets.now) × (tables.new.kinds.now ≡ tables.old.kinds.now) }
    ensures after { After (tables_held tables.old) tables.old.state
        (tested (model_in (tables_held tables.old) tables.old.state) (join first.now second.now))
        (tables_held tables.new) tables.new.state (refusal_in result) }
{
    let last = tables.state.literals as usize;
    let count = write_resolvent(
        &mut tables.literals[last..LITERAL_LIMIT],
        first,
        second,
        tables.state,
    )?;
    adding::add_clause(tables, count as u16);
    Ok(())
}

// A clause without the literal at a place as a new clause.
pub fn add_reduced(clause: &[i16], place: usize, tables: &mut LentMut) -> Result<(), Refusal>
    requires { Holding (tables_held tables.old) tables.old.state × (place < length clause.now) × (length clause.now ≤ width_limit) }
    ensures loans { SameLoans tables.old tables.new }
    ensures kept { (tables.new.sets.now ≡ tables.old.sets.now) × (tables.new.kinds.now ≡ tables.old.kinds.now) }
    ensures after { After (tables_held tables.old) tables.old.state
        (fitted (model_in (tables_held tables.old) tables.old.state) (One (but_at place clause.now)))
        (tables_held tables.new) tables.new.state (refusal_in result) }
{
    let width = clause.len() - 1;
    if tables.state.is_full(1, width as u32, 0) {
        return Err(Refusal::NoRoom);
    }
    let last = tables.state.literals as usize;
    let count = writing::write_without(&mut tables.literals[last..], clause, place);
    adding::add_clause(tables, count as u16);
    Ok(())
}

// A clause split in two by masks: the masks, how many literals each picks, and the set of the new variable.
#[derive(Clone, Copy, PartialEq, Eq)]
pub struct Split {
    pub left: u32,
    pub right: u32,
    pub first: usize,
    pub second: usize,
    pub set: [u64; 4],
}

// The two parts of a fork as new clauses, with the new variable.
pub fn add_parts(clause: &[i16], split: Split, tables: &mut LentMut) -> Result<(), Refusal>
    requires { Holding (tables_held tables.old) tables.old.state × Splits clause.now split }
    ensures loans { SameLoans tables.old tables.new }
    ensures after { After (tables_held tables.old) tables.old.state
        (fitted (model_in (tables_held tables.old) tables.old.state)
        (Two (pick split.left clause.now ++ (pos (suc tables.old.state.variables.0) ∷ [])) (pick split.right clause.now ++ (negsuc tables.old.state.variables.0 ∷ [])) (as_set split.set)))
        (tables_held tables.new) tables.new.state (refusal_in result) }
{
    let first = split.first + 1;
    let second = split.second + 1;
    if tables.state.is_full(2, (first + second) as u32, 1) {
        return Err(Refusal::NoRoom);
    }
    let variable = (tables.state.variables.0 + 1) as i16;
    let last = tables.state.literals as usize;
    writing::write_fork(
        &mut tables.literals[last..],
        clause,
        split.left,
        split.right,
        variable,
    );
    adding::add_fork(tables, first as u16, second as u16, split.set);
    Ok(())
}
