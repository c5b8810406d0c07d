// The questions about the sample: clauses as they are shown, their lengths, kinds and set sizes of variables.
use super::build::{self, Sample};
use dqbf::refusal::Refusal;
use questions::VariableEntry;
use std::io;
use tables::{ClauseNumber, Lent, State, StepNumber, VariableNumber};

fn write_refusal(rt: &impl Print, refusal: Refusal) -> io::Result<()> {
    let number = refusal.number();
    print!(rt; " refused {number}")
}

// What is shown of a clause, and its length.
pub fn clause(rt: &impl Print, tables: &Lent, number: u32) -> io::Result<()> {
    print!(rt; "clause {number}:")?;
    printed::literals(rt, questions::show(tables, ClauseNumber(number)))?;
    match questions::clause_length(tables, ClauseNumber(number)) {
        Ok(length) => print!(rt; " length {length}")?,
        Err(refusal) => write_refusal(rt, refusal)?,
    }
    println!(rt)
}

// Kind and set size of a variable.
pub fn variable(rt: &impl Print, tables: &Lent, number: u32) -> io::Result<()> {
    print!(rt; "variable {number}:")?;
    match questions::variable(tables, VariableNumber(number)) {
        Ok(VariableEntry { kind, universals }) => {
            print!(rt; " kind {kind} universals {universals}")?
        }
        Err(refusal) => write_refusal(rt, refusal)?,
    }
    println!(rt)
}

pub fn clauses(rt: &impl Print) -> io::Result<()> {
    let sample = Sample::marked();
    for number in 0..8 {
        clause(rt, &sample.lent(), number)?;
    }
    clause(rt, &sample.lent(), 65537)
}

pub fn variables(rt: &impl Print) -> io::Result<()> {
    let sample = Sample::marked();
    for number in 0..8 {
        variable(rt, &sample.lent(), number)?;
    }
    variable(rt, &sample.lent(), 65537)
}

// Short and ill-formed tables.
pub fn refused(rt: &impl Print) -> io::Result<()> {
    let literals = [0; 8192];
    let ends = [0; 2048];
    let sets = [0; 2048];
    let kinds = [0; 511];
    let short = Lent {
        literals: &literals,
        ends: &ends,
        sets: &sets,
        kinds: &kinds,
        state: build::sample_state(),
    };
    clause(rt, &short, 1)?;
    variable(rt, &short, 1)?;
    let state = State {
        steps: StepNumber(4),
        ..build::sample_state()
    };
    let ill_formed = Sample {
        state,
        ..Sample::marked()
    };
    clause(rt, &ill_formed.lent(), 1)?;
    variable(rt, &ill_formed.lent(), 1)
}
