// A decoded record examined by its rule.
ghost use Rattle.dqbf.specs.Limits as Limits;
ghost use Rattle.dqbf.specs.Refusal.{refusal_in};
ghost use Rattle.dqbf.specs.Run as Run;
ghost use Rattle.records.specs.Record.{step_in};
ghost use Rattle.tables.specs.Tables.{model_in};
ghost use Rattle.tables.specs.Lent.{tables_held, SameLoans};
ghost use Rattle.additions.specs.Adding.{Holding, After};

use crate::rules;
use dqbf::refusal::Refusal;
use records::Step;
use tables::{ClauseNumber, LentMut};

// Examines a step by the tests of its rule, on tables that hold a model; the run and the step come here.
pub fn examine(step: Step, tables: &mut LentMut) -> Result<(), Refusal>
    requires { Holding (tables_held tables.old) tables.old.state }
    ensures loans { SameLoans tables.old tables.new }
    ensures after { After (tables_held tables.old) tables.old.state
        (Run.examine Limits.tables (model_in (tables_held tables.old) tables.old.state) (step_in step))
        (tables_held tables.new) tables.new.state (refusal_in result) }
{
    match step {
        Step::Resolution {
            clause,
            second,
            pivot,
        } => rules::resolve(ClauseNumber(clause), ClauseNumber(second), pivot, tables),
        Step::Reduction { clause, literal } => {
            rules::reduce(ClauseNumber(clause), literal, tables)
        }
        Step::Fork {
            clause,
            left,
            right,
        } => rules::fork(ClauseNumber(clause), left, right, tables),
    }
}
