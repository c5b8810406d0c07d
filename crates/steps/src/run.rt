// A run over a list of records.
ghost use Rattle.std.specs.Prelude.{◌≡◌, ◌≤◌, Ok, length};
ghost use Rattle.dqbf.specs.Limits as Limits;
ghost use Rattle.dqbf.specs.Run as Run;
ghost use Rattle.tables.specs.Tables.{model_in};
ghost use Rattle.tables.specs.Lent.{tables_held, SameLoans};
ghost use Rattle.steps.specs.Steps.{run_told, AfterRun, ran_on, run_of};
ghost use Rattle.additions.specs.Adding.{Holding};
ghost use Rattle.steps.specs.Runs.{records_in, verdict_in};

use crate::{BadStep, Outcome};
use dqbf::limits::RECORDS_LIMIT;
use dqbf::refusal::Refusal;
use records::RECORD_SIZE;
use rules::examine;
use tables::{LentMut, State, StepNumber};

// Refuted if there is an empty clause, else open.
fn outcome_of(state: State) -> Outcome
    ensures { run_told (Ok result) ≡ verdict_in state }
{
    if state.empty.0 == 0 {
        Outcome::Open(state.steps)
    } else {
        Outcome::Refuted(state.steps, state.empty)
    }
}

// The records one by one, up to the first that is refused. The last may be cut.
fn run_records(bytes: &[u8], tables: &mut LentMut) -> Result<Outcome, BadStep>
    requires { Holding (tables_held tables.old) tables.old.state × (length bytes.now ≤ Limits.records_limit) }
    ensures loans { SameLoans tables.old tables.new }
    ensures after { ◌≡◌ {A = AfterRun}
        (record { tables = tables_held tables.new; state = tables.new.state; answer = run_told result })
        (ran_on (tables_held tables.old)
        (Run.run_from Limits.tables (records_in bytes.now) 0 (model_in (tables_held tables.old) tables.old.state))) }
{
    for (i, record) in bytes.chunks(RECORD_SIZE).enumerate() {
        let number = StepNumber(i as u32 + 1);
        let Some(step) = records::decode(record) else {
            return Err(BadStep {
                step: number,
                refusal: Refusal::Malformed,
            });
        };
        if let Err(refusal) = examine::examine(step, tables) {
            return Err(BadStep {
                step: number,
                refusal,
            });
        }
    }
    Ok(outcome_of(tables.state))
}

// Runs a list of records: 1, 2, the list's length, then record by record up to the first that is refused. Records behind an empty clause are examined
// like the rest.
pub fn run(bytes: &[u8], tables: &mut LentMut) -> Result<Outcome, BadStep>
    ensures loans { SameLoans tables.old tables.new }
    ensures after { ◌≡◌ {A = AfterRun}
        (record { tables = tables_held tables.new; state = tables.new.state; answer = run_told result })
        (run_of (tables_held tables.old) tables.old.state bytes.now) }
{
    let lent = tables.view();
    lent.usable()?;
    if bytes.len() > RECORDS_LIMIT {
        return Err(Refusal::OverLimit.into());
    }
    run_records(bytes, tables)
}
