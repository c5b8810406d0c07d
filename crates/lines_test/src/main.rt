// For each number of numbers.bin (32 bits, little-endian) but the last: how many digits it has, and the line of each verdict, with the number behind it as the second.
// A refused step has the low 16 bits of the second as its number, and once more with those of the first as the variable.
#![tactic(auto)]

use lines::line::{LINE_SIZE, Verdict};
use lines::{digits, line};
use std::io;

fn print_line(rt: &impl Print, verdict: Verdict) -> io::Result<()> {
    let mut out = [0u8; LINE_SIZE];
    if let Some(count) = line::write_line(&mut out, verdict) {
        rt.write_all(&out[..count])?;
    }
    Ok(())
}

fn low_bits(n: u32) -> u16 {
    (n % 65536) as u16
}

fn print_number(rt: &impl Print, n: u32, k: u32) -> io::Result<()> {
    let number = low_bits(k);
    let count = digits::digit_count(n);
    println!(rt; "{count}")?;
    print_line(rt, Verdict::Refuted(n, k))?;
    print_line(rt, Verdict::Open(n))?;
    print_line(rt, Verdict::Bad(n, number, None))?;
    print_line(rt, Verdict::Bad(n, number, Some(low_bits(n))))?;
    print_line(rt, Verdict::Formula(n, k))
}

fn print_numbers(rt: &impl Print, bytes: &[u8]) -> io::Result<()> {
    let (numbers, _) = bytes.as_chunks::<4>();
    for pair in numbers.array_windows::<2>() {
        print_number(rt, u32::from_le_bytes(pair[0]), u32::from_le_bytes(pair[1]))?;
    }
    Ok(())
}

fn main(rt: HostRuntime) -> io::Result<()> {
    let mut bytes = [0u8; 8192];
    let length = files::read_file(&rt, "numbers.bin", &mut bytes);
    print_numbers(&rt, &bytes[..length])
}
