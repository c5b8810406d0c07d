// The formula part of the tables as DQDIMACS (document 02, Note 1).
#![tactic(auto)]

ghost use Rattle.std.specs.Prelude.{◌≡◌, true, ltb, length};
ghost use Rattle.tables.specs.Tables.{model_in};
ghost use Rattle.tables.specs.Lent.{tables_lent};
ghost use Rattle.tables.specs.WellFormed.{long, well_formed};
ghost use Rattle.dqbf.specs.Spelled.{spelled};
ghost use Rattle.words.specs.Laid.{Fits, Wrote};
ghost use Rattle.words.specs.Output.{SameOutput};
ghost use Rattle.formula_lines.specs.Working.{universal_names};
ghost use Rattle.formula_text.specs.Entries.{EntriesOf, text_of};
ghost use Rattle.formula_text.specs.Writing.{write_told, write_of};

use dqbf::limits::UNIVERSAL_LIMIT;
use dqbf::refusal::Refusal;
use formula_lines::{clauses, prefix, universals};
use tables::Lent;
use words::Writer;

// An output of so many bytes is never too short.
pub const TIDY_LIMIT: usize = 311296;

// The entries of a formula: `kinds` has those of the variables 1 to V, `sets` the words of their sets, `ends` those of the formula clauses.
#[derive(Clone, Copy)]
pub struct Formula<'a> {
    pub literals: &'a [i16],
    pub ends: &'a [u16],
    pub sets: &'a [u64],
    pub kinds: &'a [u8],
}

// The lines of a formula, from its entries: `names` are the universals.
fn write_lines(writer: &mut Writer, names: &[u32], formula: &Formula)
    requires { Fits writer.old.at (text_of formula.now) × EntriesOf formula.now × (names.now ≡ universal_names formula.now.kinds.now) }
    ensures loan { SameOutput writer.old writer.new }
    ensures wrote { Wrote (text_of formula.now) writer.old.at writer.old.out.now writer.new.out.now writer.new.at }
{
    let variables = formula.kinds.len() as u32;
    let count = formula.ends.len() as u32;
    prefix::write_header(writer, variables, count);
    prefix::write_a_line(writer, names, formula.sets);
    prefix::write_d_lines(writer, names, formula.kinds, formula.sets);
    clauses::write_clauses(writer, formula.literals, formula.ends);
}

// The same, with the universals listed first.
fn write_entries(writer: &mut Writer, formula: &Formula)
    requires { Fits writer.old.at (text_of formula.now) × EntriesOf formula.now }
    ensures loan { SameOutput writer.old writer.new }
    ensures wrote { Wrote (text_of formula.now) writer.old.at writer.old.out.now writer.new.out.now writer.new.at }
{
    let mut names = [0u32; UNIVERSAL_LIMIT as usize];
    let count = universals::list_universals(&mut names, formula.kinds);
    write_lines(writer, &names[..count], formula);
}

// The text of well-formed tables.
fn write_text(out: &mut [u8], tables: &Lent) -> usize
    requires { (long (tables_lent tables.now) ≡ true) × (well_formed (tables_lent tables.now) tables.now.state ≡ true) }
    ensures { Wrote (spelled (model_in (tables_lent tables.now) tables.now.state)) 0 out.old out.new result }
{
    let bound = tables.state.bound;
    let formula = tables.state.formula;
    let variables = bound.0 as usize;
    let clauses = formula.0 as usize;
    let words = 4 * variables;
    let entries = Formula {
        literals: tables.literals,
        ends: &tables.ends[..clauses],
        sets: &tables.sets[..words],
        kinds: &tables.kinds[..variables],
    };
    let mut writer = Writer { out, at: 0 };
    write_entries(&mut writer, &entries);
    writer.at
}

// Whether an output of `size` bytes is shorter than the text of well-formed tables. The text is measured over an empty output.
fn is_short(size: usize, tables: &Lent) -> bool
    requires { (long (tables_lent tables.now) ≡ true) × (well_formed (tables_lent tables.now) tables.now.state ≡ true) }
    ensures { result ≡ ltb size (length (spelled (model_in (tables_lent tables.now) tables.now.state))) }
{
    if TIDY_LIMIT <= size {
        return false;
    }
    let mut none = [0u8; 0];
    let needed = write_text(&mut none, tables);
    size < needed
}

// Writes the text to the front of `out`, and answers how long it is, or the refusal: 1, 2 or 30. Nothing is stored until it is known to fit.
pub fn write_formula(out: &mut [u8], tables: &Lent) -> Result<usize, Refusal>
    ensures { record { answer = write_told result; output = out.new } ≡ write_of (tables_lent tables.now) tables.now.state out.old }
{
    tables.usable()?;
    if is_short(out.len(), tables) {
        return Err(Refusal::OutputTooShort);
    }
    Ok(write_text(out, tables))
}
