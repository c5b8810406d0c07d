// Numbers in decimal digits, by subtraction of powers of ten (document 02, Note 2): no division and no remainder.
ghost use Rattle.std.specs.Prelude.{◌≡◌, ◌++◌, ◌+◌, ◌*◌, ◌^◌, ◌≤◌, ◌<◌, length, drop};
ghost use Rattle.dqbf.specs.Line.{digits_of};
ghost use Rattle.lines.specs.Digits.{Reached, Grown};

// The powers of ten below 2^32.
const POWERS: [u32; 10] = [
    1, 10, 100, 1000, 10000, 100000, 1000000, 10000000, 100000000, 1000000000,
];

fn power_of_ten(exponent: usize) -> u32
    requires { exponent < 10 }
    ensures { result ≡ 10 ^ exponent }
{
    POWERS[exponent]
}

// How many digits a number has.
pub fn digit_count(n: u32) -> usize
    ensures { result ≡ length (digits_of n) }
{
    for count in 1..10 {
        if n < power_of_ten(count) {
            return count;
        }
    }
    10
}

// A digit, and what is left behind it.
#[derive(Clone, Copy)]
struct Digit {
    digit: u8,
    rest: u32,
}

// The digit of a number at a power of ten: how often the power can be subtracted, which is nine times at most.
fn digit_at(n: u32, power: u32) -> Digit
    requires { n < 10 * power }
    ensures { (n ≡ result.digit * power + result.rest) × (result.rest < power) × (result.digit ≤ 9) }
{
    let mut digit = 0;
    let mut rest = n;
    // no range: with one exit the compiler makes a multiplication of this loop where the power is a numeral, with two it does not
    while digit < 9 && power <= rest {
        rest -= power;
        digit += 1;
    }
    Digit { digit, rest }
}

// How far a number is written: where its next digit goes, and what is left of the number.
#[derive(Clone, Copy)]
struct Begun {
    at: usize,
    rest: u32,
}

// Writes the digit at a power of ten; none, if the power is above the number.
fn write_digit(out: &mut [u8], n: u32, begun: Begun, power: u32) -> Begun
    requires { (0 < power) × (length (digits_of n) ≤ length out.old) × Reached n (10 * power) begun }
    ensures { Reached n power result × Grown n (10 * power) power out.old out.new }
{
    if n < power {
        return begun;
    }
    let next = digit_at(begun.rest, power);
    out[begun.at] = b'0' + next.digit;
    Begun {
        at: begun.at + 1,
        rest: next.rest,
    }
}

// Writes three digits, at powers of which each is ten times the next; none, if the lowest power is above the number.
fn write_three(out: &mut [u8], n: u32, begun: Begun, high: u32, middle: u32, low: u32) -> Begun
    requires { (0 < low) × (middle ≡ 10 * low) × (high ≡ 10 * middle) × (length (digits_of n) ≤ length out.old) × Reached n (10 * high) begun }
    ensures { Reached n low result × Grown n (10 * high) low out.old out.new }
{
    if n < low {
        return begun;
    }
    let first = write_digit(out, n, begun, high);
    let second = write_digit(out, n, first, middle);
    write_digit(out, n, second, low)
}

// Writes a number's digits to the front of `out`; answers how many there are. Each power is a numeral here, so that the compiler knows what `digit_at` subtracts. The last
// digit is what is left.
pub fn write_digits(out: &mut [u8], n: u32) -> usize
    requires { length (digits_of n) ≤ length out.old }
    ensures { (result ≡ length (digits_of n)) × (out.new ≡ digits_of n ++ drop (length (digits_of n)) out.old) }
{
    let start = Begun { at: 0, rest: n };
    let high = write_three(out, n, start, 1000000000, 100000000, 10000000);
    let middle = write_three(out, n, high, 1000000, 100000, 10000);
    let low = write_three(out, n, middle, 1000, 100, 10);
    out[low.at] = b'0' + low.rest as u8;
    low.at + 1
}
