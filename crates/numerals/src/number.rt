// Tokens as numbers.
ghost use Rattle.std.specs.Prelude.{◌≡◌, ◌^◌, ◌≤◌, ◌<◌, length, IfSome};
ghost use Rattle.dqbf.specs.Limits.{digit_limit};
ghost use Rattle.dqbf.specs.Text.{number_of};
ghost use Rattle.numerals.specs.Working.{answered, digits_from};

// So many digits has the longest number.
const DIGITS: usize = 5;

// The number that digits make; none where a byte is no digit.
fn digits_value(token: &[u8]) -> Option<u32>
    requires { length token.now ≤ digit_limit }
    ensures { (result ≡ answered (digits_from 0 token.now)) × IfSome result (λ n. n < 10 ^ digit_limit) }
{
    let mut value = 0;
    for &b in token {
        if !b.is_ascii_digit() {
            return None;
        }
        value = value * 10 + u32::from(b - b'0');
    }
    Some(value)
}

// The number that a token is.
pub fn number(token: &[u8]) -> Option<u32>
    ensures { (result ≡ answered (number_of token.now)) × IfSome result (λ n. n < 10 ^ digit_limit) }
{
    if token.is_empty() || token.len() > DIGITS {
        return None;
    }
    match token {
        [b'0', _, ..] => None,
        _ => digits_value(token),
    }
}
