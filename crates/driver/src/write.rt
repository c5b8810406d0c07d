// The exported writer of the formula (document 02, Note 1).
ghost use Rattle.std.specs.Prelude.{◌≡◌};
ghost use Rattle.buffers.specs.Buffers.{buffers_of};
ghost use Rattle.exports.specs.Calls.{AfterWriteBytes, write_bytes};

use dqbf::refusal::Refusal;
use whole_calls::write;

// Writes the formula part of the tables in the driver's buffers to the front of `out`, as text.
#[tactic(auto, using(std::proofs::lemmas::Bool::Decides::nat_tests), unfolding(exports::specs::Calls::write_bytes, exports::specs::Calls::write_short, buffers::specs::Buffers::whole, buffers::specs::Buffers::state_whole, tables::specs::WellFormed::every))]
#[unsafe(no_mangle)]
pub extern "C" fn kefthrun_write(
    out: &mut [u8],
    literals: &[u8],
    ends: &[u8],
    sets: &[u8],
    kinds: &[u8],
    state: &[u8],
) -> u64
    ensures { ◌≡◌ {A = AfterWriteBytes} (record { output = out.new; result = result })
        (write_bytes (buffers_of literals.now ends.now sets.now kinds.now state.now) out.old) }
{
    if !buffers::is_whole(literals, ends, sets, kinds, state) {
        return results::of_write(Err(Refusal::TableTooShort));
    }
    write::write_whole(out, literals, ends, sets, kinds, state)
}
