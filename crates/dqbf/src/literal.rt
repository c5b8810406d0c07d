// Literals (document 01, "The four lent tables"): a variable number or its negation, as a signed 16-bit number.
ghost use Rattle.std.specs.Prelude.{◌≡◌, ◌<◌, neg_ℤ, nat_abs};
ghost use Rattle.dqbf.specs.Literal.{literal_in};

// The variable of a literal. (The minimum, which is no literal, gives 32,768.)
pub fn variable_of(l: i16) -> u16
    ensures { result ≡ nat_abs l }
{
    l.unsigned_abs()
}

// The complement of a literal.
pub fn negated(l: i16) -> i16
    requires { nat_abs l < 32768 }
    ensures { result ≡ neg_ℤ l }
{
    -l
}

// A record's signed 32-bit number as a literal; 0 where 16 bits hold none. 0 stands in no clause, so that rules find it in none and need no case of its own.
pub fn narrowed(x: i32) -> i16
    ensures { result ≡ literal_in x }
{
    if x.unsigned_abs() <= 32767 {
        x as i16
    } else {
        0
    }
}
