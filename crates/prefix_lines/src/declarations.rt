// The prefix lines: variables declared, one after the other, in the kinds and the sets.
ghost use Rattle.std.specs.Prelude.{◌≡◌, true, [], ◌∷◌, ℕ, ◌+◌, ◌≤◌, ◌<◌, OnErr, length, get_or, drop};
ghost use Rattle.std.proofs.Math.Option.{none};
ghost use Rattle.dqbf.specs.Limits.{universal_limit};
ghost use Rattle.dqbf.specs.Reading.{Reader, prefix_lines, a_line, e_line, d_line, taken};
ghost use Rattle.dqbf.specs.Refusal.{refusal_in};
ghost use Rattle.sets.specs.Words.{words_each, as_set, as_sets, spare_in};
ghost use Rattle.tables.specs.Tables.{Tables};
ghost use Rattle.tables.specs.Lent.{tables_held, SameLoans};
ghost use Rattle.prefix_lines.specs.Rows.{Declared, members_told};
ghost use Rattle.prefix_lines.specs.Lines.{carried, ReadSoFar, Known, SameRoom, LineRead, DeclaredAll, OneMore};

use super::progress::{Phase, Progress};
use dqbf::limits::UNIVERSAL_LIMIT;
use dqbf::refusal::Refusal;
use ranks::order;
use tables::{LentMut, State, VariableNumber, entries, kind};

// A variable up to V that has no kind yet is given its kind and its set.
fn declare(variable: u32, kind: u8, set: [u64; 4], tables: &mut LentMut) -> Result<(), Refusal>
    requires { (0 < variable) × (tables.old.state.bound.0 ≤ length (as_sets words_each tables.old.sets.now))
        × (tables.old.state.bound.0 ≤ length tables.old.kinds.now) }
    ensures loans { SameLoans tables.old tables.new }
    ensures declared { Declared tables.old.state.bound.0 variable kind (as_set set) (as_sets words_each tables.old.sets.now) tables.old.kinds.now
        (refusal_in result) (as_sets words_each tables.new.sets.now) tables.new.kinds.now }
    ensures spare { spare_in words_each tables.new.sets.now ≡ spare_in words_each tables.old.sets.now }
    ensures rest { (tables.new.literals.now ≡ tables.old.literals.now) × (tables.new.ends.now ≡ tables.old.ends.now) × (tables.new.state ≡ tables.old.state) }
{
    if variable > tables.state.bound.0 {
        return Err(Refusal::Variable);
    }
    let place = (variable - 1) as usize;
    if tables.kinds[place] != kind::UNDECLARED {
        return Err(Refusal::Variable);
    }
    sets::put(tables.sets, place, set);
    tables.kinds[place] = kind;
    Ok(())
}

// One variable of an `a` line; or of an `e` line, whose set is the universals so far.
fn declare_one(variable: u32, universal: bool, tables: &mut LentMut) -> Result<(), Refusal>
    requires { (0 < variable) × (tables.old.state.bound.0 ≤ length (as_sets words_each tables.old.sets.now))
        × (tables.old.state.bound.0 ≤ length tables.old.kinds.now)
        × (universal ≡ true → tables.old.state.universals < universal_limit) × (tables.old.state.universals ≤ universal_limit) }
    ensures loans { SameLoans tables.old tables.new }
    ensures counts { OneMore tables.old.state tables.new.state }
    ensures refused { OnErr result (tables.new.state ≡ tables.old.state) }
    ensures rest { (tables.new.literals.now ≡ tables.old.literals.now) × (tables.new.ends.now ≡ tables.old.ends.now) }
    ensures room { SameRoom (tables_held tables.old) (tables_held tables.new) }
    ensures read { (t : Tables) (reader : Reader) (progress : Progress)
        → ReadSoFar t reader (carried progress tables.old.state) (tables_held tables.old) → reader.phase ≡ prefix_lines
        → DeclaredAll universal (variable ∷ []) t reader (refusal_in result) (carried progress tables.new.state) (tables_held tables.new) }
{
    let universals = tables.state.universals;
    if !universal {
        let earlier = sets::lowest(universals);
        return declare(variable, kind::EXISTENTIAL, earlier, tables);
    }
    declare(variable, kind::UNIVERSAL, sets::single(universals), tables)?;
    tables.state = State {
        universals: universals + 1,
        ..tables.state
    };
    Ok(())
}

// The variables of an `a` line, or of an `e` line, one after the other.
fn declare_all(variables: &[u32], universal: bool, tables: &mut LentMut) -> Result<(), Refusal>
    requires { ((i : ℕ) → i < length variables.now → 0 < get_or variables.now i 0) × (tables.old.state.bound.0 ≤ length (as_sets words_each tables.old.sets.now))
        × (tables.old.state.bound.0 ≤ length tables.old.kinds.now) × (universal ≡ true → tables.old.state.universals + length variables.now ≤ universal_limit)
        × (tables.old.state.universals ≤ universal_limit) }
    ensures loans { SameLoans tables.old tables.new }
    ensures refused { OnErr result (tables.new.state ≡ tables.old.state) }
    ensures rest { (tables.new.literals.now ≡ tables.old.literals.now) × (tables.new.ends.now ≡ tables.old.ends.now) }
    ensures room { SameRoom (tables_held tables.old) (tables_held tables.new) }
    ensures read { (t : Tables) (reader : Reader) (progress : Progress)
        → ReadSoFar t reader (carried progress tables.old.state) (tables_held tables.old) → reader.phase ≡ prefix_lines
        → DeclaredAll universal variables.now t reader (refusal_in result) (carried progress tables.new.state) (tables_held tables.new) }
{
    let before = tables.state;
    for variable in variables {
        if let Err(refusal) = declare_one(*variable, universal, tables) {
            tables.state = before;
            return Err(refusal);
        }
    }
    Ok(())
}

// The union of the sets of a `d` line's members, if each of them is a universal.
fn members_of(variables: &[u32], sets: &[u64], kinds: &[u8]) -> Option<[u64; 4]>
    ensures { members_told (as_sets words_each sets.now) kinds.now variables.now result }
{
    let mut union = [0u64; 4];
    for variable in variables {
        let member = VariableNumber(*variable);
        if entries::kind_of(kinds, member) != kind::UNIVERSAL {
            return None;
        }
        let set = entries::set_of(sets, member);
        let united = sets::union(union, set);
        union = united;
    }
    Some(union)
}

// An `e` line.
pub fn existential_line(
    variables: &[u32],
    progress: Progress,
    tables: &mut LentMut,
) -> Result<(), Refusal>
    requires { ((i : ℕ) → i < length variables.now → 0 < get_or variables.now i 0) × (tables.old.state.bound.0 ≤ length (as_sets words_each tables.old.sets.now))
        × (tables.old.state.bound.0 ≤ length tables.old.kinds.now) × (tables.old.state.universals ≤ universal_limit) }
    ensures loans { SameLoans tables.old tables.new }
    ensures refused { OnErr result (tables.new.state ≡ tables.old.state) }
    ensures rest { (tables.new.literals.now ≡ tables.old.literals.now) × (tables.new.ends.now ≡ tables.old.ends.now) }
    ensures room { SameRoom (tables_held tables.old) (tables_held tables.new) }
    ensures read { (t : Tables) (reader : Reader)
        → ReadSoFar t reader (carried progress tables.old.state) (tables_held tables.old)
        → LineRead t reader (e_line variables.now) (refusal_in result) (carried progress tables.new.state) (tables_held tables.new) }
{
    if progress.phase != Phase::PrefixLines {
        return Err(Refusal::NoForm);
    }
    declare_all(variables, false, tables)
}

// A `d` line: one existential, whose set is the union of the sets of its universals.
pub fn dependent_line(
    numbers: &[u32],
    progress: Progress,
    tables: &mut LentMut,
) -> Result<(), Refusal>
    requires { (0 < length numbers.now) × (0 < get_or numbers.now 0 0) × (tables.old.state.bound.0 ≤ length (as_sets words_each tables.old.sets.now))
        × (tables.old.state.bound.0 ≤ length tables.old.kinds.now) }
    ensures loans { SameLoans tables.old tables.new }
    ensures refused { OnErr result (tables.new.state ≡ tables.old.state) }
    ensures rest { (tables.new.literals.now ≡ tables.old.literals.now) × (tables.new.ends.now ≡ tables.old.ends.now) }
    ensures room { SameRoom (tables_held tables.old) (tables_held tables.new) }
    ensures read { (t : Tables) (reader : Reader)
        → ReadSoFar t reader (carried progress tables.old.state) (tables_held tables.old)
        → LineRead t reader (d_line (get_or numbers.now 0 0) (drop 1 numbers.now)) (refusal_in result) (carried progress tables.new.state) (tables_held tables.new) }
{
    if progress.phase != Phase::PrefixLines {
        return Err(Refusal::NoForm);
    }
    let lent = tables.view();
    let end = lent.state.bound.0 as usize;
    let Some(set) = members_of(&numbers[1..], &lent.sets[..4 * end], &lent.kinds[..end]) else {
        return Err(Refusal::Variable);
    };
    declare(numbers[0], kind::EXISTENTIAL, set, tables)
}

// An `a` line. `known` has the different numbers on the `a` lines so far, in ascending order.
pub fn universal_line(
    variables: &[u32],
    known: &mut [u32],
    progress: Progress,
    tables: &mut LentMut,
) -> Result<(), Refusal>
    requires { ((i : ℕ) → i < length variables.now → 0 < get_or variables.now i 0) × (tables.old.state.bound.0 ≤ length (as_sets words_each tables.old.sets.now))
        × (tables.old.state.bound.0 ≤ length tables.old.kinds.now) × (tables.old.state.universals ≤ universal_limit) × (universal_limit < length known.old) }
    ensures loans { SameLoans tables.old tables.new }
    ensures refused { OnErr result (tables.new.state ≡ tables.old.state) }
    ensures rest { (tables.new.literals.now ≡ tables.old.literals.now) × (tables.new.ends.now ≡ tables.old.ends.now) }
    ensures room { SameRoom (tables_held tables.old) (tables_held tables.new) }
    ensures read { (t : Tables) (reader : Reader)
        → ReadSoFar t reader (carried progress tables.old.state) (tables_held tables.old) → Known reader known.old
        → LineRead t reader (a_line variables.now) (refusal_in result) (carried progress tables.new.state) (tables_held tables.new)
        × (refusal_in result ≡ none → Known (taken reader (a_line variables.now)) known.new) }
{
    if progress.phase != Phase::PrefixLines {
        return Err(Refusal::NoForm);
    }
    let before = tables.state.universals as usize;
    let limit = UNIVERSAL_LIMIT as usize;
    let Some(count) = order::insert_all(variables, known, before, limit) else {
        return Err(Refusal::OverLimit);
    };
    if count - before != variables.len() {
        return Err(Refusal::Variable);
    }
    declare_all(variables, true, tables)
}
