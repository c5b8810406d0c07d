// Prints the tidy text of the formula in formula.dq in its folder (document 02, Note 1), or the line of its refusal (document 01, "The line printed").
#![tactic(auto)]

use api::{
    CLAUSE_LIMIT, LINE_SIZE, LITERAL_LIMIT, Lent, LentMut, LoadRefusal, State, TABLE_WORDS,
    TEXT_LIMIT, TIDY_LIMIT, VARIABLE_LIMIT,
};
use lines::line;
use lines::line::Verdict;
use std::io;

fn print_refusal(rt: &impl Print, refused: LoadRefusal) -> io::Result<()> {
    let mut out = [0u8; LINE_SIZE];
    let verdict = Verdict::Formula(refused.line, refused.refusal.number() as u32);
    if let Some(count) = line::write_line(&mut out, verdict) {
        rt.write_all(&out[..count])?;
    }
    Ok(())
}

// The tables of an accepted load are well formed, and the output is long enough for every text (`LongEnough` of round_trip): a text is always written.
fn print_text(rt: &impl Print, tables: &Lent) -> io::Result<()> {
    let mut out = [0u8; TIDY_LIMIT];
    if let Ok(count) = api::write_formula(&mut out, tables) {
        rt.write_all(&out[..count])?;
    }
    Ok(())
}

// The tidy text of a text, or the line of its refusal, printed.
fn print_tidy(rt: &impl Print, text: &[u8]) -> io::Result<()> {
    let mut tables = LentMut {
        literals: &mut [0; LITERAL_LIMIT],
        ends: &mut [0; CLAUSE_LIMIT],
        sets: &mut [0; TABLE_WORDS],
        kinds: &mut [0; VARIABLE_LIMIT],
        state: State::default(),
    };
    match api::load(text, &mut tables) {
        Ok(()) => print_text(rt, &tables.view()),
        Err(refused) => print_refusal(rt, refused),
    }
}

// One byte more than the limit, so that the library finds a file that is too long.
fn main(rt: HostRuntime) -> io::Result<()> {
    let mut text = [0u8; TEXT_LIMIT + 1];
    let length = files::read_file(&rt, "formula.dq", &mut text);
    print_tidy(&rt, &text[..length])
}
