// Entries filled one after the other.
ghost use Rattle.std.specs.Prelude.{◌<◌};

// Clauses of so many literals 1, 2, .., and a shorter last one.
pub fn literals(entries: &mut [i16], width: u16, total: u16) {
    let mut variable = 0;
    for entry in entries.iter_mut().take(usize::from(total)) {
        variable = next(variable, width);
        *entry = variable as i16;
    }
}

// The next variable of a clause, or the first of another one.
fn next(variable: u16, width: u16) -> u16
    ensures { result < 1000 }
{
    if variable >= width || variable > 512 {
        1
    } else {
        variable + 1
    }
}

// Their ends; how many there are.
pub fn ends(entries: &mut [u16; 2056], width: u16, total: u16) -> u32 {
    let mut end: u16 = 0;
    for count in 0..2056 {
        if end >= total {
            return count;
        }
        end = end.saturating_add(width).min(total);
        entries[count as usize] = end;
    }
    2056
}

// The first so many kinds.
pub fn kinds(entries: &mut [u8], count: u16, kind: u8) {
    for entry in entries.iter_mut().take(usize::from(count)) {
        *entry = kind;
    }
}

// The sets of the first so many universals; the bits of more than 256 begin again.
pub fn bits(entries: &mut [u64; 2083], count: u16) {
    for i in 0..usize::from(count).min(520) {
        entries[4 * i + i % 256 / 64] = 1 << (i % 64);
    }
}
