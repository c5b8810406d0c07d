// Calls `step` and `show` and prints what they answer. First the first tests of a step; then the packed cases of cases.bin, each with its label: the refusal of the load, or
// the answer of each step, the counts and every clause as it is shown. The tables pass from case to case as the case before left them.
#![tactic(auto)]

mod first;
mod shown;
mod taken;
mod told;

use api::{CLAUSE_LIMIT, LITERAL_LIMIT, LentMut, State, TABLE_WORDS, VARIABLE_LIMIT};
use std::{fs, io};

// The label; then the refusal of the text, or the answers of the steps, the counts behind them and the clauses, a line each.
fn print_case(
    rt: &impl Print,
    label: &[u8],
    text: &[u8],
    records: &[u8],
    tables: &mut LentMut,
) -> io::Result<()> {
    rt.write_all(label)?;
    if let Err(refused) = api::load(text, tables) {
        return told::refusal(rt, refused);
    }
    rt.write_all(b"\nsteps")?;
    taken::take_steps(rt, records, tables)?;
    told::counts(rt, tables.state)?;
    shown::clauses(rt, &tables.view())
}

fn main(rt: HostRuntime) -> io::Result<()> {
    first::tests(&rt)?;
    let Ok(mut file) = fs::open(&rt, "cases.bin") else {
        return Ok(());
    };
    let mut tables = LentMut {
        literals: &mut [0; LITERAL_LIMIT],
        ends: &mut [0; CLAUSE_LIMIT],
        sets: &mut [0; TABLE_WORDS],
        kinds: &mut [0; VARIABLE_LIMIT],
        state: State::default(),
    };
    packed::each_case(&mut file, |label, text, records| {
        print_case(&rt, label, text, records, &mut tables)
    })
}
