// Step records (document 01, "Step records"): sixteen bytes each, little-endian.
#![tactic(auto)]

ghost use Rattle.std.specs.Prelude.{◌≡◌};
ghost use Rattle.dqbf.specs.Record as Calculus;
ghost use Rattle.records.specs.Record.{decoded_in};

// The bytes of a record.
pub const RECORD_SIZE: usize = 16;

// The three kinds of steps.
#[derive(Clone, Copy, PartialEq, Eq)]
pub enum Step {
    Resolution {
        clause: u32,
        second: u32,
        pivot: i32,
    },
    Reduction {
        clause: u32,
        literal: i32,
    },
    Fork {
        clause: u32,
        left: u32,
        right: u32,
    },
}

// The record at the front of some bytes; those behind the sixteenth are not read. None is number 20: the kind is not 1 to 3, a byte stated as 0 is not,
// or there are fewer than 16 bytes.
pub fn decode(bytes: &[u8]) -> Option<Step>
    ensures { decoded_in result ≡ Calculus.record_of bytes.now }
{
    let [kind, 0, 0, 0, a, b, c, d, e, f, g, h, i, j, k, l, ..] = *bytes else {
        return None;
    };
    let clause = u32::from_le_bytes([a, b, c, d]);
    let second = u32::from_le_bytes([e, f, g, h]);
    let third = u32::from_le_bytes([i, j, k, l]);
    match kind {
        1 => Some(Step::Resolution {
            clause,
            second,
            pivot: third.cast_signed(),
        }),
        2 if second == 0 => Some(Step::Reduction {
            clause,
            literal: third.cast_signed(),
        }),
        3 => Some(Step::Fork {
            clause,
            left: second,
            right: third,
        }),
        _ => None,
    }
}
