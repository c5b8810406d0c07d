// Files read whole.
#![tactic(auto)]

ghost use Rattle.std.specs.Prelude.{◌≤◌, length};

use std::fs;
use std::io::Read;
use std::rt::Files;

// Reads to the end of a file or until `bytes` is full, with short reads continued; a file that cannot be read to there counts as empty.
pub fn read_whole(file: &mut impl Read, bytes: &mut [u8]) -> usize
    ensures { result ≤ length bytes.new }
{
    let mut done = 0;
    // into lent bytes, without a heap: the next read begins where the last one ended
    while done < bytes.len() {
        match file.read(&mut bytes[done..]) {
            Ok(0) => return done,
            Ok(more) => done += more,
            Err(_) => return 0,
        }
    }
    done
}

// Reads a file of this name; one that cannot be opened counts as empty.
pub fn read_file(files: &impl Files, name: &str, bytes: &mut [u8]) -> usize
    ensures { result ≤ length bytes.new }
{
    match fs::open(files, name) {
        Ok(mut file) => read_whole(&mut file, bytes),
        Err(_) => 0,
    }
}
