// One line for each verdict.
ghost use Rattle.std.specs.Prelude.{◌≡◌, ◌∷◌, ◌++◌, ◌+◌, ◌≤◌, length, drop};
ghost use Rattle.dqbf.specs.Text.{space};
ghost use Rattle.dqbf.specs.Line.{digits_of, spaced};
ghost use Rattle.lines.specs.Lines.{line_of, output_size, written, with_line};
ghost use Rattle.lines.specs.declared.line.Verdict.TheVariants.{Bad};

use super::digits;

// What is printed: accepted steps and lowest empty clause; accepted steps; a step with the number of its refusal and the variable that it names; a line of the
// formula with the number of its refusal.
#[derive(Clone, Copy, PartialEq, Eq)]
pub enum Verdict {
    Refuted(u32, u32),
    Open(u32),
    Bad(u32, u16, Option<u16>),
    Formula(u32, u32),
}

// Bytes that are lent for a line: enough for every one.
pub const LINE_SIZE: usize = 32;

// Copies a word to the front of `out`.
fn write_word(out: &mut [u8], word: &[u8]) -> usize
    requires { length word.now ≤ length out.old }
    ensures { (result ≡ length word.now) × (out.new ≡ word.now ++ drop (length word.now) out.old) }
{
    out[..word.len()].copy_from_slice(word);
    word.len()
}

// A space and a number's digits.
fn write_number(out: &mut [u8], n: u32) -> usize
    requires { length (space ∷ digits_of n) ≤ length out.old }
    ensures { (result ≡ length (space ∷ digits_of n)) × (out.new ≡ (space ∷ digits_of n) ++ drop (length (space ∷ digits_of n)) out.old) }
{
    out[0] = b' ';
    digits::write_digits(&mut out[1..], n) + 1
}

// Numbers, each behind a space, and the line feed.
fn write_numbers(out: &mut [u8], numbers: &[u32]) -> usize
    requires { length (spaced numbers.now) ≤ length out.old }
    ensures { (result ≡ length (spaced numbers.now))
        × (out.new ≡ spaced numbers.now ++ drop (length (spaced numbers.now)) out.old) }
{
    let mut at = 0;
    for &number in numbers {
        at += write_number(&mut out[at..], number);
    }
    out[at] = b'\n';
    at + 1
}

// A word, numbers and the line feed.
fn write_word_numbers(out: &mut [u8], word: &[u8], numbers: &[u32]) -> usize
    requires { length word.now + length (spaced numbers.now) ≤ length out.old }
    ensures { (result ≡ length (word.now ++ spaced numbers.now))
        × (out.new ≡ (word.now ++ spaced numbers.now) ++ drop (length (word.now ++ spaced numbers.now)) out.old) }
{
    let at = write_word(out, word);
    at + write_numbers(&mut out[at..], numbers)
}

// The step, the number of its refusal, and the variable that it names.
fn write_bad(out: &mut [u8], step: u32, number: u16, variable: Option<u16>) -> usize
    requires { output_size ≤ length out.old }
    ensures { (result ≡ length (line_of (Bad step number variable)))
        × (out.new ≡ line_of (Bad step number variable) ++ drop (length (line_of (Bad step number variable))) out.old) }
{
    match variable {
        None => write_word_numbers(out, b"bad", &[step, number as u32]),
        Some(named) => write_word_numbers(out, b"bad", &[step, number as u32, named as u32]),
    }
}

// Writes the line to the front of `out`, and answers how many bytes that are; the rest stays. None: fewer than LINE_SIZE bytes are lent, and none is changed.
pub fn write_line(out: &mut [u8], verdict: Verdict) -> Option<usize>
    ensures { (result ≡ written (line_of verdict) out.old) × (out.new ≡ with_line (line_of verdict) out.old) }
{
    if out.len() < LINE_SIZE {
        return None;
    }
    Some(match verdict {
        Verdict::Refuted(steps, clause) => write_word_numbers(out, b"refuted", &[steps, clause]),
        Verdict::Open(steps) => write_word_numbers(out, b"open", &[steps]),
        Verdict::Bad(step, number, variable) => write_bad(out, step, number, variable),
        Verdict::Formula(line, number) => write_word_numbers(out, b"formula", &[line, number]),
    })
}
