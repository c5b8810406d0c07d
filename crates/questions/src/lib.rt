// Questions about the tables, which change nothing (document 01, "The four lent tables"): a shown clause, the length of a clause, kind and set size of a variable.
#![tactic(auto)]

ghost use Rattle.std.specs.Prelude.{◌≡◌};
ghost use Rattle.tables.specs.Lent.{tables_lent};
ghost use Rattle.questions.specs.Answers.{Shown, length_told, length_answer, variable_told, variable_answer};

use dqbf::refusal::Refusal;
use tables::{ClauseNumber, Lent, VariableNumber, entries};

// Kind of a variable, as the byte in the kinds table, and how many universals its set holds.
#[derive(Clone, Copy, PartialEq, Eq)]
pub struct VariableEntry {
    pub kind: u8,
    pub universals: u16,
}

// The clause's own stretch of the literals, with no copy made; the empty stretch at the start for an unknown number, short or ill-formed tables.
pub fn show<'l>(tables: &Lent<'l, '_>, clause: ClauseNumber) -> &'l [i16]
    ensures { Shown (tables_lent tables.now) tables.now.state clause.0 tables.now.literals result }
{
    let nothing = &tables.literals[..0];
    let Ok(()) = tables.usable() else {
        return nothing;
    };
    if clause.0 == 0 {
        return nothing;
    }
    if tables.state.clauses.0 < clause.0 {
        return nothing;
    }
    let range = entries::clause_range(tables.ends, clause);
    &tables.literals[range.start..range.end]
}

// How many literals a clause has, or the refusal: 1, 2 or 21.
pub fn clause_length(tables: &Lent, clause: ClauseNumber) -> Result<u16, Refusal>
    ensures { length_told result ≡ length_answer (tables_lent tables.now) tables.now.state clause.0 }
{
    tables.usable()?;
    if clause.0 == 0 {
        return Err(Refusal::UnknownClause);
    }
    if clause.0 > tables.state.clauses.0 {
        return Err(Refusal::UnknownClause);
    }
    let range = entries::clause_range(tables.ends, clause);
    Ok((range.end - range.start) as u16)
}

// Kind and set size of a variable in use, or the refusal: 1, 2 or 22; a number that no line declares has kind 0 and no universal.
pub fn variable(tables: &Lent, number: VariableNumber) -> Result<VariableEntry, Refusal>
    ensures { variable_told result ≡ variable_answer (tables_lent tables.now) tables.now.state number.0 }
{
    tables.usable()?;
    if number.0 == 0 {
        return Err(Refusal::Absent);
    }
    if number.0 > tables.state.variables.0 {
        return Err(Refusal::Absent);
    }
    let kind = entries::kind_of(tables.kinds, number);
    let set = entries::set_of(tables.sets, number);
    let universals = sets::size(set) as u16;
    Ok(VariableEntry { kind, universals })
}
