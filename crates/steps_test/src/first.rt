// The first tests of a step in their order, over zero tables: each of the four lengths, the counts, the record.
ghost use Rattle.std.specs.Prelude.{◌≤◌};

use super::taken;
use api::{LentMut, State, StepNumber};
use std::io;

// A record of a kind with no clause, over four zero tables of these lengths, behind so many steps.
fn take(
    rt: &impl Print,
    first: usize,
    second: usize,
    third: usize,
    fourth: usize,
    steps: u32,
    kind: u8,
) -> io::Result<()>
    requires { (first ≤ 8192) × (second ≤ 2048) × (third ≤ 2048) × (fourth ≤ 512) }
{
    let mut literals = [0i16; 8192];
    let mut ends = [0u16; 2048];
    let mut sets = [0u64; 2048];
    let mut kinds = [0u8; 512];
    let mut tables = LentMut {
        literals: &mut literals[..first],
        ends: &mut ends[..second],
        sets: &mut sets[..third],
        kinds: &mut kinds[..fourth],
        state: State {
            steps: StepNumber(steps),
            ..State::default()
        },
    };
    let record = [kind, 0, 0, 0, 0, 0, 0, 0, 0, 0, 0, 0, 0, 0, 0, 0];
    taken::print_answer(rt, api::step(&record, &mut tables))
}

// What is tested behind the test that is broken is wrong too, so that the order is seen.
pub fn tests(rt: &impl Print) -> io::Result<()> {
    rt.write_all(b"first tests\nsteps")?;
    take(rt, 8191, 2048, 2048, 512, 1, 0)?;
    take(rt, 8192, 2047, 2048, 512, 1, 0)?;
    take(rt, 8192, 2048, 2047, 512, 1, 0)?;
    take(rt, 8192, 2048, 2048, 511, 1, 0)?;
    take(rt, 8192, 2048, 2048, 512, 1, 0)?;
    take(rt, 8192, 2048, 2048, 512, 0, 0)?;
    take(rt, 8192, 2048, 2048, 512, 0, 1)?;
    println!(rt)
}
