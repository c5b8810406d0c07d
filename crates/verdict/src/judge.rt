// A formula's text and a list of steps to the line.
ghost use Rattle.std.specs.Prelude.{◌≡◌};
ghost use Rattle.dqbf.specs.Line.{verdict_line};
ghost use Rattle.tables.specs.Lent.{tables_held, SameLoans};
ghost use Rattle.steps.specs.Steps.{run_told};
ghost use Rattle.lines.specs.Lines.{line_of, written, with_line};
ghost use Rattle.verdict.specs.Judging.{judged_line, judged_tables, judged_state};

use lines::line;
use lines::line::Verdict;
use steps::{BadStep, Outcome, run};
use tables::LentMut;

// The line's case for what a run comes to.
#[tactic(auto, unfolding(lines::specs::Lines::line_of))]
fn told_by(answer: Result<Outcome, BadStep>) -> Verdict
    ensures { line_of result ≡ verdict_line (run_told answer) }
{
    match answer {
        Ok(Outcome::Refuted(steps, clause)) => Verdict::Refuted(steps.0, clause.0),
        Ok(Outcome::Open(steps)) => Verdict::Open(steps.0),
        Err(bad) => Verdict::Bad(bad.step.0, bad.refusal.number(), bad.refusal.variable()),
    }
}

// Loads the text and, if it is accepted, runs the records.
fn load_and_run(text: &[u8], records: &[u8], tables: &mut LentMut) -> Verdict
    ensures loans { SameLoans tables.old tables.new }
    ensures after { (line_of result ≡ judged_line (tables_held tables.old) text.now records.now)
        × (tables_held tables.new ≡ judged_tables (tables_held tables.old) text.now records.now)
        × (tables.new.state ≡ judged_state (tables_held tables.old) text.now records.now) }
{
    if let Err(refused) = dqdimacs::load(text, tables) {
        return Verdict::Formula(refused.line, refused.refusal.number() as u32);
    }
    told_by(run::run(records, tables))
}

// The line of a formula and a list of steps, to the front of `out`, and how many bytes it has (None: too few are lent). What the tables and the state hold before
// does not matter.
pub fn judge(text: &[u8], records: &[u8], tables: &mut LentMut, out: &mut [u8]) -> Option<usize>
    ensures loans { SameLoans tables.old tables.new }
    ensures after { (result ≡ written (judged_line (tables_held tables.old) text.now records.now) out.old)
        × (out.new ≡ with_line (judged_line (tables_held tables.old) text.now records.now) out.old)
        × (tables_held tables.new ≡ judged_tables (tables_held tables.old) text.now records.now)
        × (tables.new.state ≡ judged_state (tables_held tables.old) text.now records.now) }
{
    let verdict = load_and_run(text, records, tables);
    line::write_line(out, verdict)
}
