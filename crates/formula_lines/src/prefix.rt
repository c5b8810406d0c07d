// The header and the prefix lines. `kinds` has those of the variables 1 to V, `sets` the words of their sets, `names` the universals, ascending.
ghost use Rattle.std.specs.Prelude.{◌≡◌, map, ◌≤◌, length};
ghost use Rattle.dqbf.specs.Limits.{variable_limit, universal_limit};
ghost use Rattle.dqbf.specs.Line.{digits_of};
ghost use Rattle.dqbf.specs.Reading.{header, d_line};
ghost use Rattle.dqbf.specs.Spelling.{line_text, text};
ghost use Rattle.dqbf.specs.Spelled.{existentials, a_lines, d_line_of};
ghost use Rattle.sets.specs.Words.{words_each, as_set, as_sets};
ghost use Rattle.words.specs.Laid.{Fits, Wrote};
ghost use Rattle.words.specs.Output.{SameOutput};
ghost use Rattle.words.specs.Listed.{listed};
ghost use Rattle.formula_lines.specs.Working.{declarations, universal_names, is_in, members_in, declared_from};

use super::universals;
use tables::{VariableNumber, entries, kind as kinds_of};
use words::Writer;

// The header.
pub fn write_header(writer: &mut Writer, variables: u32, clauses: u32)
    requires { Fits writer.old.at (line_text (header variables clauses)) }
    ensures loan { SameOutput writer.old writer.new }
    ensures wrote { Wrote (line_text (header variables clauses)) writer.old.at writer.old.out.now writer.new.out.now writer.new.at }
{
    writer.word(b"p cnf ");
    writer.spaced(variables);
    writer.number(clauses);
    writer.byte(b'\n');
}

// The universals in order of declaration, and the closing 0.
fn write_universals(writer: &mut Writer, names: &[u32], sets: &[u64])
    requires { Fits writer.old.at (listed (map digits_of (declared_from names.now (as_sets words_each sets.now) 0 (length names.now)))) × (length names.now ≤ universal_limit) }
    ensures loan { SameOutput writer.old writer.new }
    ensures wrote { Wrote (listed (map digits_of (declared_from names.now (as_sets words_each sets.now) 0 (length names.now)))) writer.old.at writer.old.out.now writer.new.out.now writer.new.at }
{
    for i in 0..names.len() {
        let set = sets::single(i as u16);
        // 0 where none has the set, as in the definition `universal_with`.
        let variable = universals::universal_with(names, sets, set).unwrap_or(0);
        writer.spaced(variable);
    }
    writer.closing();
}

// One `a` line, if there are universals.
pub fn write_a_line(writer: &mut Writer, names: &[u32], sets: &[u64])
    requires { Fits writer.old.at (text (a_lines (declared_from names.now (as_sets words_each sets.now) 0 (length names.now)))) × (length names.now ≤ universal_limit) }
    ensures loan { SameOutput writer.old writer.new }
    ensures wrote { Wrote (text (a_lines (declared_from names.now (as_sets words_each sets.now) 0 (length names.now)))) writer.old.at writer.old.out.now writer.new.out.now writer.new.at }
{
    if names.is_empty() {
        return;
    }
    writer.word(b"a ");
    write_universals(writer, names, sets);
}

// Whether a universal is in a set.
fn is_in(sets: &[u64], set: [u64; 4], variable: VariableNumber) -> bool
    ensures { result ≡ is_in (as_sets words_each sets.now) (as_set set) variable.0 }
{
    let own = entries::set_of(sets, variable);
    sets::inside(own, set)
}

// The universals in a set, ascending, and the closing 0.
fn write_members(writer: &mut Writer, names: &[u32], sets: &[u64], set: [u64; 4])
    requires { Fits writer.old.at (listed (map digits_of (members_in names.now (as_sets words_each sets.now) (as_set set)))) }
    ensures loan { SameOutput writer.old writer.new }
    ensures wrote { Wrote (listed (map digits_of (members_in names.now (as_sets words_each sets.now) (as_set set)))) writer.old.at writer.old.out.now writer.new.out.now writer.new.at }
{
    for &variable in names {
        if is_in(sets, set, VariableNumber(variable)) {
            writer.spaced(variable);
        }
    }
    writer.closing();
}

// The `d` line of a variable with its set.
fn write_d_line(writer: &mut Writer, names: &[u32], sets: &[u64], variable: u32, set: [u64; 4])
    requires { Fits writer.old.at (line_text (d_line variable (members_in names.now (as_sets words_each sets.now) (as_set set)))) }
    ensures loan { SameOutput writer.old writer.new }
    ensures wrote { Wrote (line_text (d_line variable (members_in names.now (as_sets words_each sets.now) (as_set set)))) writer.old.at writer.old.out.now writer.new.out.now writer.new.at }
{
    writer.word(b"d ");
    writer.spaced(variable);
    write_members(writer, names, sets, set);
}

// A `d` line for each existential, ascending.
pub fn write_d_lines(writer: &mut Writer, names: &[u32], kinds: &[u8], sets: &[u64])
    requires { Fits writer.old.at (text (map (d_line_of (declarations kinds.now (as_sets words_each sets.now))) (existentials (declarations kinds.now (as_sets words_each sets.now)))))
        × (names.now ≡ universal_names kinds.now) × (length (as_sets words_each sets.now) ≡ length kinds.now) × (length kinds.now ≤ variable_limit) }
    ensures loan { SameOutput writer.old writer.new }
    ensures wrote { Wrote (text (map (d_line_of (declarations kinds.now (as_sets words_each sets.now))) (existentials (declarations kinds.now (as_sets words_each sets.now))))) writer.old.at writer.old.out.now writer.new.out.now writer.new.at }
{
    for (i, &kind) in kinds.iter().enumerate() {
        if kind == kinds_of::EXISTENTIAL {
            let set = sets::get(sets, i);
            write_d_line(writer, names, sets, i as u32 + 1, set);
        }
    }
}
