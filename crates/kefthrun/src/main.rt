// Checks the steps in steps.bin against the formula in formula.dq, both in its folder, and prints the line (document 01, "The line printed").
#![tactic(auto)]

use api::{
    CLAUSE_LIMIT, LINE_SIZE, LITERAL_LIMIT, LentMut, RECORDS_LIMIT, State, TABLE_WORDS, TEXT_LIMIT,
    VARIABLE_LIMIT,
};
use std::io;

// The line of a formula and a list of steps, printed.
fn print_line(rt: &impl Print, text: &[u8], records: &[u8]) -> io::Result<()> {
    let mut tables = LentMut {
        literals: &mut [0; LITERAL_LIMIT],
        ends: &mut [0; CLAUSE_LIMIT],
        sets: &mut [0; TABLE_WORDS],
        kinds: &mut [0; VARIABLE_LIMIT],
        state: State::default(),
    };
    let mut out = [0u8; LINE_SIZE];
    let written = api::judge(text, records, &mut tables, &mut out);
    if let Some(count) = written {
        rt.write_all(&out[..count])?;
    }
    Ok(())
}

// One byte more than the limit of each, so that the library finds a file that is too long.
fn main(rt: HostRuntime) -> io::Result<()> {
    let mut text = [0u8; TEXT_LIMIT + 1];
    let mut records = [0u8; RECORDS_LIMIT + 1];
    let text_length = files::read_file(&rt, "formula.dq", &mut text);
    let records_length = files::read_file(&rt, "steps.bin", &mut records);
    print_line(&rt, &text[..text_length], &records[..records_length])
}
