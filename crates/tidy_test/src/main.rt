// Calls `write_formula` on the packed cases of cases.bin and prints each label with the refusal of the load; or, behind a run of the records, the tidy text, its length,
// the answer for an output one byte shorter than the text, and whether all bytes that are to stay are as they were. The tables pass from case to case as the case before
// left them.
#![tactic(auto)]

mod told;
mod written;

use api::{CLAUSE_LIMIT, LITERAL_LIMIT, LentMut, State, TABLE_WORDS, VARIABLE_LIMIT};
use std::{fs, io};

// The label; then the refusal of the text, or the tidy text behind a run of the records, whose answer is not printed.
fn print_case(
    rt: &impl Print,
    label: &[u8],
    text: &[u8],
    records: &[u8],
    tables: &mut LentMut,
) -> io::Result<()> {
    rt.write_all(label)?;
    println!(rt)?;
    if let Err(refused) = api::load(text, tables) {
        return told::refusal(rt, refused);
    }
    let _ = api::run(records, tables);
    written::print_text(rt, &tables.view())
}

fn main(rt: HostRuntime) -> io::Result<()> {
    let Ok(mut file) = fs::open(&rt, "cases.bin") else {
        return Ok(());
    };
    let mut tables = LentMut {
        literals: &mut [0; LITERAL_LIMIT],
        ends: &mut [0; CLAUSE_LIMIT],
        sets: &mut [0; TABLE_WORDS],
        kinds: &mut [0; VARIABLE_LIMIT],
        state: State::default(),
    };
    packed::each_case(&mut file, |label, text, records| {
        print_case(&rt, label, text, records, &mut tables)
    })
}
