// Byte strings and numbers of an open file of cases; how it is packed stands in reference/cases/src/packed.rs. Numbers are 16 bits, little-endian.
#![tactic(auto)]

ghost use Rattle.std.specs.Prelude.{◌≤◌, length};

use std::io;
use std::io::Read;

// The next number; 0 at the end of the file.
fn read_number(file: &mut impl Read) -> usize {
    let mut two = [0u8; 2];
    files::read_whole(file, &mut two);
    u16::from_le_bytes(two) as usize
}

// Appends a unit behind the first `done` bytes, if there is room.
fn append(unit: &[u8], bytes: &mut [u8], done: usize) -> usize
    requires { done ≤ length bytes.old }
    ensures { result ≤ length bytes.new }
{
    if bytes.len() - done < unit.len() {
        return done;
    }
    let end = done + unit.len();
    bytes[done..end].copy_from_slice(unit);
    end
}

fn append_times(unit: &[u8], times: usize, bytes: &mut [u8], done: usize) -> usize
    requires { done ≤ length bytes.old }
    ensures { result ≤ length bytes.new }
{
    let mut end = done;
    for _ in 0..times {
        end = append(unit, bytes, end);
    }
    end
}

// One run: how often, and the unit.
fn read_run(file: &mut impl Read, unit: &mut [u8], bytes: &mut [u8], done: usize) -> usize
    requires { done ≤ length bytes.old }
    ensures { result ≤ length bytes.new }
{
    let times = read_number(file);
    let size = read_number(file);
    if size > unit.len() {
        return done;
    }
    let count = files::read_whole(file, &mut unit[..size]);
    if count < size {
        return done;
    }
    append_times(&unit[..size], times, bytes, done)
}

// A byte string; 65,535 runs stand for the one of the case before, of so many bytes.
fn read_string(file: &mut impl Read, unit: &mut [u8], bytes: &mut [u8], before: usize) -> usize
    requires { before ≤ length bytes.old }
    ensures { result ≤ length bytes.new }
{
    let runs = read_number(file);
    if runs == 65535 {
        return before;
    }
    let mut done = 0;
    for _ in 0..runs {
        done = read_run(file, unit, bytes, done);
    }
    done
}

// Calls `visit` with label, text and list of each case of the file, until one fails.
pub fn each_case<F: FnMut(&[u8], &[u8], &[u8]) -> io::Result<()>>(
    file: &mut impl Read,
    mut visit: F,
) -> io::Result<()>
    requires { F.IsAlwaysCallable visit }
{
    let mut unit = [0u8; 33000];
    let mut text = [0u8; 33000];
    let mut records = [0u8; 33000];
    let mut label = [0u8; 200];
    let mut text_length = 0;
    let mut records_length = 0;
    for _ in 0..read_number(file) {
        text_length = read_string(file, &mut unit, &mut text, text_length);
        records_length = read_string(file, &mut unit, &mut records, records_length);
        let label_length = read_string(file, &mut unit, &mut label, 0);
        visit(
            &label[..label_length],
            &text[..text_length],
            &records[..records_length],
        )?;
    }
    Ok(())
}
