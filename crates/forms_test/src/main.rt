// Tests of the forms: prints the form of each line of its input, with its numbers, and for clauses and universals these numbers in ascending order.
#![tactic(auto)]

ghost use Rattle.std.specs.Prelude.{◌≤◌, ◌*◌, length};
ghost use Rattle.forms_test.specs.Counted.{Counted};

use forms::form::Shape;
use std::io;
use std::io::Read;

fn write_numbers(rt: &impl Print, numbers: &[u32]) -> io::Result<()> {
    for &number in numbers {
        printed::number(rt, number)?;
    }
    Ok(())
}

// The literal of a rank; the rank itself where a table entry does not hold the literal.
fn write_rank(rt: &impl Print, rank: u32) -> io::Result<()> {
    if 65535 < rank {
        rt.write_all(b" rank")?;
        return printed::number(rt, rank);
    }
    printed::literal(rt, ranks::literals::literal_of(rank))
}

fn write_ranks(rt: &impl Print, ranks: &[u32]) -> io::Result<()> {
    for &rank in ranks {
        write_rank(rt, rank)?;
    }
    Ok(())
}

// The different variables of a line in ascending order, if they are at most 64.
fn write_universals(rt: &impl Print, numbers: &[u32]) -> io::Result<()> {
    let mut sorted = [0u32; 65];
    let Some(used) = ranks::order::insert_all(numbers, &mut sorted, 0, 64) else {
        return rt.write_all(b" over 64");
    };
    rt.write_all(b" :")?;
    write_numbers(rt, &sorted[..used])
}

// The clause as it is kept, if it has at most 32 literals, and whether it has complementary ones.
fn write_clause(rt: &impl Print, numbers: &[u32]) -> io::Result<()> {
    let mut sorted = [0u32; 33];
    let Some(used) = ranks::order::insert_all(numbers, &mut sorted, 0, 32) else {
        return rt.write_all(b" over 32");
    };
    rt.write_all(b" :")?;
    write_ranks(rt, &sorted[..used])?;
    if ranks::literals::has_pair(&sorted[..used]) {
        rt.write_all(b" complementary")?;
    }
    Ok(())
}

#[tactic(auto, unfolding(crate::specs::Counted::count_of))]
fn write_shape(rt: &impl Print, shape: Shape, numbers: &[u32]) -> io::Result<()>
    requires { Counted shape (length numbers.now) }
{
    match shape {
        Shape::Comment => rt.write_all(b"comment")?,
        Shape::Header(v, c) => {
            rt.write_all(b"header")?;
            printed::number(rt, v)?;
            printed::number(rt, c)?;
        }
        Shape::Universals(n) => {
            rt.write_all(b"universals")?;
            write_numbers(rt, &numbers[..n])?;
            write_universals(rt, &numbers[..n])?;
        }
        Shape::Existentials(n) => {
            rt.write_all(b"existentials")?;
            write_numbers(rt, &numbers[..n])?;
        }
        Shape::Dependent(n) => {
            rt.write_all(b"dependent")?;
            write_numbers(rt, &numbers[..n])?;
        }
        Shape::Clause(n) => {
            rt.write_all(b"clause")?;
            write_ranks(rt, &numbers[..n])?;
            write_clause(rt, &numbers[..n])?;
        }
    }
    println!(rt)
}

fn write_lines(rt: &impl Print, text: &[u8], numbers: &mut [u32]) -> io::Result<()>
    requires { length text.now ≤ 2 * length numbers.old }
{
    let mut at = 0;
    // no range: the next line begins where this one ends
    while at < text.len() {
        let end = at + tokens::text::line_length(&text[at..]);
        if end == text.len() {
            return rt.println("no line feed");
        }
        match forms::form::form(&text[at..end], numbers) {
            Some(shape) => write_shape(rt, shape, numbers)?,
            None => rt.println("malformed")?,
        }
        at = end + 1;
    }
    Ok(())
}

// Reads until `bytes` is full, the input ends or a read fails.
fn read_full(input: &mut impl Read, bytes: &mut [u8]) -> usize
    ensures { result ≤ length bytes.new }
{
    let mut done = 0;
    // into lent bytes, without a heap: the next read begins where the last one ended
    while done < bytes.len() {
        match input.read(&mut bytes[done..]) {
            Ok(0) | Err(_) => return done,
            Ok(more) => done += more,
        }
    }
    done
}

fn main(rt: HostRuntime) -> io::Result<()> {
    let mut text = [0u8; 4096];
    let size = read_full(&mut rt.reader(), &mut text);
    let mut numbers = [0u32; 2048];
    write_lines(&rt, &text[..size], &mut numbers)
}
