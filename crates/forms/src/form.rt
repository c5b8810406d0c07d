// The form of a line.
ghost use Rattle.std.specs.Prelude.{◌≡◌, ◌+◌, ◌≤◌, ◌<◌, ◌*◌, length, get_or, MatchOption};
ghost use Rattle.std.proofs.Math.Option.{some};
ghost use Rattle.dqbf.specs.Text.{space, closed, literal_of, variable_of};
ghost use Rattle.dqbf.specs.Reading.{header_form, clause_form, tokens_form, form_of};
ghost use Rattle.tokens.specs.Working.{words_of, after, Cut};
ghost use Rattle.forms.specs.Shapes.{shape_of, Formed};
ghost use Rattle.forms.specs.Working.{keyword, Listing};

use numerals::{list, number};
use tokens::text;
use tokens::text::Token;

// The form of a line; a list of numbers with how many it has.
#[derive(Clone, Copy)]
pub enum Shape {
    Comment,
    Header(u32, u32),
    Universals(usize),
    Existentials(usize),
    Dependent(usize),
    Clause(usize),
}

// The first byte of a line that no space leads, if its first token is one byte long.
fn keyword_byte(line: &[u8]) -> Option<u8>
    requires { 0 < length line.now }
    ensures { result ≡ keyword line.now }
{
    if line.len() == 1 || line[1] == b' ' {
        Some(line[0])
    } else {
        None
    }
}

// The token behind the one that ends at i, if the line goes on there.
fn token_behind(line: &[u8], i: usize) -> Option<Token>
    requires { i ≤ length line.now }
    ensures { MatchOption result (i ≡ length line.now) (λ t. (i < length line.now) × Cut line.now (i + 1) t) }
{
    if i == line.len() {
        None
    } else {
        Some(text::next_token(line, i + 1))
    }
}

// What stands behind the `p` of a header line, which ends at i.
fn header_form(line: &[u8], i: usize) -> Option<Shape>
    requires { i ≤ length line.now }
    ensures { result ≡ shape_of (header_form (after line.now i)) }
{
    let format = token_behind(line, i)?;
    let variables = token_behind(line, format.to)?;
    let clauses = token_behind(line, variables.to)?;
    if clauses.to != line.len() {
        return None;
    }
    if &line[format.from..format.to] != b"cnf".as_slice() {
        return None;
    }
    let v = number::number(&line[variables.from..variables.to])?;
    let c = number::number(&line[clauses.from..clauses.to])?;
    Some(Shape::Header(v, c))
}

// The variables that a line lists behind the token that ends at i: how many, if there is such a list with one at least.
fn variables(line: &[u8], i: usize, numbers: &mut [u32]) -> Option<usize>
    requires { (i ≤ length line.now) × (length line.now ≤ 2 * length numbers.old) }
    ensures { Listing (closed variable_of (after line.now i)) result numbers.new }
{
    if i == line.len() {
        return None;
    }
    let n = list::gather(line, i + 1, false, numbers)?;
    if n == 0 { None } else { Some(n) }
}

// A line as a clause.
fn clause_form(line: &[u8], numbers: &mut [u32]) -> Option<Shape>
    requires { length line.now ≤ 2 * length numbers.old }
    ensures { Formed (clause_form (closed literal_of (words_of line.now))) result numbers.new }
{
    let n = list::gather(line, 0, true, numbers)?;
    Some(Shape::Clause(n))
}

// The form of a line, which no space leads, by its tokens; an empty token at its end, which a trailing space leaves, has no form.
fn tokens_form(line: &[u8], numbers: &mut [u32]) -> Option<Shape>
    requires { (length line.now ≤ 2 * length numbers.old) × (0 < length line.now) × (get_or line.now 0 0 ≡ space → ⊥) }
    ensures { Formed (tokens_form (some (words_of line.now))) result numbers.new }
{
    match keyword_byte(line) {
        Some(b'p') => header_form(line, 1),
        Some(b'a') => Some(Shape::Universals(variables(line, 1, numbers)?)),
        Some(b'e') => Some(Shape::Existentials(variables(line, 1, numbers)?)),
        Some(b'd') => Some(Shape::Dependent(variables(line, 1, numbers)?)),
        _ => clause_form(line, numbers),
    }
}

// The form of a line, if it has one. Its numbers are written to the front of `numbers`: variables, or a clause's literals as their ranks.
pub fn form(line: &[u8], numbers: &mut [u32]) -> Option<Shape>
    requires { length line.now ≤ 2 * length numbers.old }
    ensures { Formed (form_of line.now) result numbers.new }
{
    match *line.first()? {
        b'c' => Some(Shape::Comment),
        b' ' => None,
        _ => tokens_form(line, numbers),
    }
}
