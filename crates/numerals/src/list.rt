// The numbers that a line lists, read byte by byte.
ghost use Rattle.std.specs.Prelude.{◌≡◌, ◌+◌, ◌≤◌, ◌<◌, ◌*◌, length, drop, IfSome};
ghost use Rattle.std.specs.Option.{unwrap_or};
ghost use Rattle.dqbf.specs.Text.{closed};
ghost use Rattle.tokens.specs.Working.{words_of};
ghost use Rattle.numerals.specs.Working.{entry_of, digit_of, ranked, Leading, Gathered};

// A number of a list, and the place behind the space that follows it.
#[derive(Clone, Copy)]
pub struct Listed {
    pub number: u32,
    pub next: usize,
}

// The digit at i that a number begins with, which is not 0.
fn first_digit(line: &[u8], i: usize) -> Option<u32>
    ensures { (unwrap_or result 0 ≡ digit_of (drop i line.now)) × IfSome result (λ d. 0 < d) }
{
    let b = *line.get(i)?;
    if (b'1' <= b) & (b <= b'9') {
        Some(u32::from(b - b'0'))
    } else {
        None
    }
}

// The variable, or where signs may stand the rank of the literal; `minus` is 1 behind a minus.
fn entry(signed: bool, value: u32, minus: u32) -> u32
    requires { (value < 100000) × (minus ≤ 1) }
    ensures { result ≡ ranked signed value minus }
{
    if signed { 2 * value + minus } else { value }
}

// The number of a list that stands at a place. Whether a minus leads it is no branch: the processor could not guess its outcome.
fn number_at(line: &[u8], at: usize, signed: bool) -> Option<Listed>
    requires { at < length line.now }
    ensures { Leading signed line.now at result }
{
    let minus = u32::from(signed & (line[at] == b'-'));
    let first = at + minus as usize;
    let mut value = first_digit(line, first)?;
    for i in first + 1..line.len() {
        let b = line[i];
        if b == b' ' {
            let number = entry(signed, value, minus);
            return Some(Listed {
                number,
                next: i + 1,
            });
        }
        if !b.is_ascii_digit() {
            return None;
        }
        value = value * 10 + u32::from(b - b'0');
        if value >= 100000 {
            return None;
        }
    }
    None
}

// The variables, or where signs may stand the ranks of the literals, that a line lists from i on before its closing 0: how many, if the tokens have that form.
pub fn gather(line: &[u8], i: usize, signed: bool, numbers: &mut [u32]) -> Option<usize>
    requires { (i ≤ length line.now) × (length line.now ≤ 2 * length numbers.old) }
    ensures { Gathered (closed (entry_of signed) (words_of (drop i line.now))) result numbers.new }
{
    let mut at = i;
    let mut n = 0;
    // no range: the next place is where a number ends
    while at < line.len() {
        if let Some(t) = number_at(line, at, signed) {
            numbers[n] = t.number;
            n += 1;
            at = t.next;
        } else if line[at] == b' ' {
            at += 1;
        } else if line[at] == b'0' && at + 1 == line.len() {
            return Some(n);
        } else {
            return None;
        }
    }
    None
}
