// The tidy text over outputs whose bytes are all a mark.
ghost use Rattle.std.specs.Prelude.{◌≡◌, ◌≤◌, length, IfOk};
ghost use Rattle.formula_text.specs.Writing.{tidy_limit};

use super::told;
use api::{Lent, TIDY_LIMIT};
use std::io;

const MARK: u8 = b'~';

// Whether every byte is a mark.
fn is_marked(bytes: &[u8]) -> bool {
    bytes.iter().all(|byte| *byte == MARK)
}

// The text and its length, which is answered. A refusal is printed by its number.
fn print_long(rt: &impl Print, out: &mut [u8], tables: &Lent) -> io::Result<usize>
    requires { length out.old ≡ tidy_limit }
    ensures { IfOk result (λ count. count ≤ tidy_limit) }
{
    match api::write_formula(out, tables) {
        Ok(count) => {
            rt.write_all(&out[..count])?;
            told::number(rt, count as u64)?;
            Ok(count)
        }
        Err(refusal) => {
            told::number(rt, u64::from(refusal.number()))?;
            Ok(0)
        }
    }
}

// The answer for the front of an output that is one byte shorter than a text of so many bytes, 0 for a text that is written; whether the whole output stays. No text is empty.
fn print_short(rt: &impl Print, out: &mut [u8], count: usize, tables: &Lent) -> io::Result<bool>
    requires { (count ≤ tidy_limit) × (length out.old ≡ tidy_limit) }
{
    if count == 0 {
        return Ok(false);
    }
    let number = match api::write_formula(&mut out[..count - 1], tables) {
        Ok(_) => 0,
        Err(refusal) => refusal.number(),
    };
    told::number(rt, u64::from(number))?;
    Ok(is_marked(out))
}

// The text, its length, the answer for a shorter output, and the marks.
pub fn print_text(rt: &impl Print, tables: &Lent) -> io::Result<()> {
    let mut long = [MARK; TIDY_LIMIT];
    let mut short = [MARK; TIDY_LIMIT];
    let count = print_long(rt, &mut long, tables)?;
    let kept = print_short(rt, &mut short, count, tables)?;
    told::marks(rt, kept && is_marked(&long[count..]))
}
