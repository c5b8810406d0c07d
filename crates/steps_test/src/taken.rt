// The steps of a list, one public call each.
use api::{LentMut, Refusal};
use std::io;

// The number of a refusal, and behind a colon the variable that it names.
fn print_refusal(rt: &impl Print, refusal: Refusal) -> io::Result<()> {
    printed::number(rt, u32::from(refusal.number()))?;
    match refusal.variable() {
        Some(variable) => print!(rt; ":{variable}"),
        None => Ok(()),
    }
}

// 0 for an accepted step, else its refusal.
pub fn print_answer(rt: &impl Print, answer: Result<(), Refusal>) -> io::Result<()> {
    match answer {
        Ok(()) => printed::number(rt, 0),
        Err(refusal) => print_refusal(rt, refusal),
    }
}

// One call for each record, for a cut last one, and for the empty rest behind a whole one. Each is lent all that is left of the list, of which it must read only the front;
// and it goes on behind a refused one.
pub fn take_steps(rt: &impl Print, records: &[u8], tables: &mut LentMut) -> io::Result<()> {
    for at in (0..=records.len()).step_by(16) {
        print_answer(rt, api::step(&records[at..], tables))?;
    }
    Ok(())
}
