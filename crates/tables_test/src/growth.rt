// Clauses, a variable and steps added to the sample; the tables cleared.
use super::build::{self, Sample};
use super::questioned;
use std::io;
use tables::{Lent, LentMut, adding, zero};

fn one_clause(tables: &mut LentMut, width: u16) {
    if tables.state.is_full(1, u32::from(width), 0)
        || tables.ends.len() < 2048
        || tables.state.steps.0 >= 2048
    {
        return;
    }
    adding::add_clause(tables, width);
}

fn one_fork(tables: &mut LentMut, left: u16, right: u16, set: [u64; 4]) {
    if tables
        .state
        .is_full(2, u32::from(left) + u32::from(right), 1)
    {
        return;
    }
    if tables.ends.len() < 2048 || tables.sets.len() < 2048 || tables.kinds.len() < 512 {
        return;
    }
    if tables.state.steps.0 >= 2048 {
        return;
    }
    adding::add_fork(tables, left, right, set);
}

// A step that adds the clause {3}, then a fork that adds {1, 7} and {4, -7}.
pub fn grown(rt: &impl Print) -> io::Result<()> {
    let mut sample = Sample::marked();
    sample.literals[8..13].copy_from_slice(&[3, 1, 7, 4, -7]);
    let mut tables = sample.lent_mut();
    one_clause(&mut tables, 1);
    one_fork(&mut tables, 2, 2, [0; 4]);
    let grown = tables.view();
    build::judged(rt, "the sample, grown", &grown)?;
    report(rt, &grown)
}

fn report(rt: &impl Print, tables: &Lent) -> io::Result<()> {
    for number in 7..10 {
        questioned::clause(rt, tables, number)?;
    }
    questioned::variable(rt, tables, 7)?;
    build::line(rt, "steps", u64::from(tables.state.steps.0))?;
    build::line(rt, "lowest empty clause", u64::from(tables.state.empty.0))
}

// A refused formula leaves zeros over the stated sizes, and the entries past them as they were.
pub fn cleared(rt: &impl Print) -> io::Result<()> {
    let mut sample = Sample::marked();
    let mut tables = sample.lent_mut();
    if tables.view().is_long() {
        zero::clear(&mut tables);
    }
    build::judged(rt, "cleared", &tables.view())?;
    marks(rt, &sample)
}

fn marks(rt: &impl Print, sample: &Sample) -> io::Result<()> {
    let literal = dqbf::literal::variable_of(sample.literals[8199]);
    build::line(rt, "last literal", u64::from(literal))?;
    build::line(rt, "last end", u64::from(sample.ends[2055]))?;
    build::line(rt, "last set", sample.sets[2082])?;
    build::line(rt, "last kind", u64::from(sample.kinds[519]))
}
