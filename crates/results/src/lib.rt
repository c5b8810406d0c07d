// Results: one number of four 16-bit fields. The case is never 0.
#![tactic(auto)]

ghost use Rattle.std.specs.Prelude.{◌≡◌};
ghost use Rattle.results.specs.Results.{packed, load_result, run_result, clause_result, stretch_result, variable_result, write_result};
ghost use Rattle.dqbf.specs.Refusal.{refusal_told};
ghost use Rattle.dqdimacs.specs.Loading.{load_told};
ghost use Rattle.questions.specs.Answers.{length_told, variable_told};
ghost use Rattle.steps.specs.Steps.{run_told};
ghost use Rattle.formula_text.specs.Writing.{write_told};

use dqbf::refusal::Refusal;
use dqdimacs::LoadRefusal;
use questions::VariableEntry;
use steps::{BadStep, Outcome};

// The cases of a load,
#[derive(Clone, Copy)]
pub enum LoadCase {
    Accepted = 1,
    Refused = 4,
}

// of a run,
#[derive(Clone, Copy)]
pub enum RunCase {
    Refuted = 1,
    Open = 2,
    Bad = 3,
}

// of a question, and of a written formula.
#[derive(Clone, Copy)]
pub enum AskCase {
    Answered = 1,
    Refused = 2,
}

// The case and three values.
#[tactic(auto, unfolding(crate::specs::Results::packed))]
pub fn pack(case: u8, a: u32, b: u32, c: u32) -> u64
    ensures { result ≡ packed case a b c }
{
    case as u64
        + 65536 * ((a % 65536) as u64)
        + 4294967296 * ((b % 65536) as u64)
        + 281474976710656 * ((c % 65536) as u64)
}

// Functions, and no `From`: neither a result nor a number is a type of this crate.
#[tactic(auto, unfolding(crate::specs::Results::load_result))]
pub fn of_load(answer: Result<(), LoadRefusal>) -> u64
    ensures { result ≡ load_result (load_told answer) }
{
    match answer {
        Ok(()) => pack(LoadCase::Accepted as u8, 0, 0, 0),
        Err(refused) => pack(
            LoadCase::Refused as u8,
            refused.line,
            refused.refusal.number() as u32,
            0,
        ),
    }
}

// A refused step has the variable that its refusal names; 0 where it names none.
#[tactic(auto, unfolding(crate::specs::Results::run_result, crate::specs::Results::named_variable))]
pub fn of_run(answer: Result<Outcome, BadStep>) -> u64
    ensures { result ≡ run_result (run_told answer) }
{
    match answer {
        Ok(Outcome::Refuted(steps, clause)) => {
            pack(RunCase::Refuted as u8, steps.0, clause.0, 0)
        }
        Ok(Outcome::Open(steps)) => pack(RunCase::Open as u8, steps.0, 0, 0),
        Err(bad) => {
            let number = bad.refusal.number();
            let variable = bad.refusal.variable().unwrap_or(0);
            pack(
                RunCase::Bad as u8,
                bad.step.0,
                number as u32,
                variable as u32,
            )
        }
    }
}

// A refused question or text.
fn refused(refusal: Refusal) -> u64
    ensures { result ≡ packed 2 (refusal_told refusal).number 0 0 }
{
    pack(AskCase::Refused as u8, refusal.number() as u32, 0, 0)
}

#[tactic(auto, unfolding(crate::specs::Results::clause_result))]
pub fn of_clause(answer: Result<u16, Refusal>) -> u64
    ensures { result ≡ clause_result (length_told answer) }
{
    match answer {
        Ok(length) => pack(AskCase::Answered as u8, length as u32, 0, 0),
        Err(refusal) => refused(refusal),
    }
}

// Place and length of a shown clause: the empty stretch at the start where the question is refused.
#[tactic(auto, unfolding(crate::specs::Results::stretch_result))]
pub fn of_show(start: u16, answer: Result<u16, Refusal>) -> u64
    ensures { result ≡ stretch_result start (length_told answer) }
{
    match answer {
        Ok(length) => pack(AskCase::Answered as u8, start as u32, length as u32, 0),
        Err(_) => pack(AskCase::Answered as u8, 0, 0, 0),
    }
}

#[tactic(auto, unfolding(crate::specs::Results::variable_result))]
pub fn of_variable(answer: Result<VariableEntry, Refusal>) -> u64
    ensures { result ≡ variable_result (variable_told answer) }
{
    match answer {
        Ok(entry) => pack(
            AskCase::Answered as u8,
            entry.kind as u32,
            entry.universals as u32,
            0,
        ),
        Err(refusal) => refused(refusal),
    }
}

// A text's length may have more than 16 bits: it is told in two values.
#[tactic(auto, unfolding(crate::specs::Results::write_result, crate::specs::Results::packed))]
pub fn of_write(answer: Result<usize, Refusal>) -> u64
    ensures { result ≡ write_result (write_told answer) }
{
    let length = match answer {
        Ok(length) => length,
        Err(refusal) => return refused(refusal),
    };
    pack(
        AskCase::Answered as u8,
        (length % 65536) as u32,
        (length / 65536 % 65536) as u32,
        0,
    )
}
