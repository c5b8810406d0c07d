// A written formula.
ghost use Rattle.std.specs.Prelude.{◌≡◌, ◌≤◌, length};
ghost use Rattle.buffers.specs.Buffers.{buffers_of};
ghost use Rattle.exports.specs.Calls.{AfterWriteBytes, write_whole};

use tables::Lent;

// The formula part of buffers that are long enough, as text. Nothing is encoded: the buffers are read only.
#[tactic(auto, unfolding(exports::specs::Calls::wrote))]
pub fn write_whole(
    out: &mut [u8],
    literals: &[u8],
    ends: &[u8],
    sets: &[u8],
    kinds: &[u8],
    state: &[u8],
) -> u64
    requires { (16384 ≤ length literals.now) × (4096 ≤ length ends.now) × (16384 ≤ length sets.now) × (16 ≤ length state.now) }
    ensures { ◌≡◌ {A = AfterWriteBytes} (record { output = out.new; result = result })
        (write_whole (buffers_of literals.now ends.now sets.now kinds.now state.now) out.old) }
{
    let mut write = |tables: &Lent| formula_text::write_formula(out, tables);
    let answer = buffers::with_tables(literals, ends, sets, kinds, state, &mut write);
    results::of_write(answer)
}
