// Clause lines: the literals of a line as a clause of the tables.
ghost use Rattle.std.specs.Prelude.{◌≡◌, map, ◌≤◌, OnErr, length};
ghost use Rattle.dqbf.specs.Limits.{clause_limit, literal_limit, variable_limit, width_limit};
ghost use Rattle.dqbf.specs.Literal.{Clause, rank};
ghost use Rattle.dqbf.specs.Reading.{Reader, clause_line};
ghost use Rattle.dqbf.specs.Refusal.{refusal_in};
ghost use Rattle.tables.specs.Tables.{Tables};
ghost use Rattle.tables.specs.Lent.{tables_held, SameLoans};
ghost use Rattle.tables.specs.WellFormed.{all_of};
ghost use Rattle.prefix_lines.specs.Rows.{is_declared};
ghost use Rattle.prefix_lines.specs.Lines.{carried, ReadSoFar, SameRoom, LineRead, Within};
ghost use Rattle.clause_lines.specs.Clause.{clause_refusal};

use dqbf::limits::{LITERAL_LIMIT, WIDTH_LIMIT};
use dqbf::refusal::Refusal;
use prefix_lines::progress::{Phase, Progress};
use ranks::{literals, order};
use tables::{Lent, LentMut, VariableNumber, adding, entries, kind};

// Whether the variable of each rank is declared.
fn all_declared(ranks: &[u32], kinds: &[u8]) -> bool
    ensures { result ≡ all_of (is_declared kinds.now) ranks.now }
{
    ranks.iter().all(|rank| entries::kind_of(kinds, VariableNumber(*rank / 2)) != kind::UNDECLARED)
}

// The tests of a clause of at most 32 literals, by its ranks.
fn clause_refusal(ranks: &[u32], progress: Progress, lent: &Lent) -> Result<(), Refusal>
    requires { (length ranks.now ≤ width_limit) × Within (carried progress lent.now.state) × (variable_limit ≤ length lent.now.kinds.now) }
    ensures { refusal_in result ≡ clause_refusal ranks.now (length ranks.now) (carried progress lent.now.state) lent.now.kinds.now }
{
    if lent.state.literals as usize + ranks.len() > LITERAL_LIMIT {
        return Err(Refusal::OverLimit);
    }
    let end = lent.state.bound.0 as usize;
    if !all_declared(ranks, &lent.kinds[..end]) {
        return Err(Refusal::Variable);
    }
    if literals::has_pair(ranks) {
        return Err(Refusal::Complementary);
    }
    if lent.state.clauses.0 >= progress.count {
        return Err(Refusal::ClauseCount);
    }
    Ok(())
}

// A clause line, as the ranks of its literals.
pub fn clause_line(
    ranks: &[u32],
    progress: &mut Progress,
    tables: &mut LentMut,
) -> Result<(), Refusal>
    requires { Within (carried progress.old tables.old.state) × (literal_limit ≤ length tables.old.literals.now) × (clause_limit ≤ length tables.old.ends.now)
        × (variable_limit ≤ length tables.old.kinds.now) }
    ensures loans { SameLoans tables.old tables.new }
    ensures refused { OnErr result ((progress.new ≡ progress.old) × (tables.new.state ≡ tables.old.state)) }
    ensures rest { (tables.new.sets.now ≡ tables.old.sets.now) × (tables.new.kinds.now ≡ tables.old.kinds.now) }
    ensures room { SameRoom (tables_held tables.old) (tables_held tables.new) }
    ensures read { (t : Tables) (reader : Reader) (C : Clause)
        → ReadSoFar t reader (carried progress.old tables.old.state) (tables_held tables.old) → ranks.now ≡ map rank C
        → LineRead t reader (clause_line C) (refusal_in result) (carried progress.new tables.new.state) (tables_held tables.new) }
{
    if progress.phase == Phase::Opening {
        return Err(Refusal::NoForm);
    }
    let mut sorted = [0u32; WIDTH_LIMIT + 1];
    let Some(width) = order::insert_all(ranks, &mut sorted, 0, WIDTH_LIMIT) else {
        return Err(Refusal::OverLimit);
    };
    let lent = tables.view();
    clause_refusal(&sorted[..width], *progress, &lent)?;
    let place = tables.state.literals as usize;
    literals::write_literals(&sorted[..width], &mut tables.literals[place..]);
    adding::add_formula_clause(tables, width as u16);
    progress.phase = Phase::ClauseLines;
    Ok(())
}
