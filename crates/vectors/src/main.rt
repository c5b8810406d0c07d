// Judges the packed cases of cases.bin and prints each label with its line. The tables pass from case to case as the case before left them.
#![tactic(auto)]

use api::{CLAUSE_LIMIT, LINE_SIZE, LITERAL_LIMIT, LentMut, State, TABLE_WORDS, VARIABLE_LIMIT};
use std::{fs, io};

// The label, then the line.
fn print_case(
    rt: &impl Print,
    label: &[u8],
    text: &[u8],
    records: &[u8],
    tables: &mut LentMut,
) -> io::Result<()> {
    let mut out = [0u8; LINE_SIZE];
    let written = api::judge(text, records, tables, &mut out);
    rt.write_all(label)?;
    rt.write_all(b": ")?;
    if let Some(count) = written {
        rt.write_all(&out[..count])?;
    }
    Ok(())
}

fn main(rt: HostRuntime) -> io::Result<()> {
    let Ok(mut file) = fs::open(&rt, "cases.bin") else {
        return Ok(());
    };
    let mut tables = LentMut {
        literals: &mut [0; LITERAL_LIMIT],
        ends: &mut [0; CLAUSE_LIMIT],
        sets: &mut [0; TABLE_WORDS],
        kinds: &mut [0; VARIABLE_LIMIT],
        state: State::default(),
    };
    packed::each_case(&mut file, |label, text, records| {
        print_case(&rt, label, text, records, &mut tables)
    })
}
