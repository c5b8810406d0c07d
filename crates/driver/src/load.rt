// The exported load.
ghost use Rattle.std.specs.Prelude.{◌≡◌};
ghost use Rattle.buffers.specs.Buffers.{buffers_of};
ghost use Rattle.exports.specs.Calls.{After, load_bytes};

use dqbf::refusal::Refusal;
use dqdimacs::LoadRefusal;
use whole_calls::load;

// Loads the text of a formula into the driver's buffers.
#[tactic(auto, using(std::proofs::lemmas::Bool::Decides::nat_tests), unfolding(exports::specs::Calls::load_bytes, exports::specs::Calls::load_short, buffers::specs::Buffers::whole, buffers::specs::Buffers::state_whole, tables::specs::WellFormed::every))]
#[unsafe(no_mangle)]
pub extern "C" fn kefthrun_load(
    text: &[u8],
    literals: &mut [u8],
    ends: &mut [u8],
    sets: &mut [u8],
    kinds: &mut [u8],
    state: &mut [u8],
) -> u64
    ensures { ◌≡◌ {A = After}
        (record {
          buffers = buffers_of literals.new ends.new sets.new kinds.new state.new;
          result = result;
        })
        (load_bytes (buffers_of literals.old ends.old sets.old kinds.old state.old) text.now) }
{
    if !buffers::is_whole(literals, ends, sets, kinds, state) {
        buffers::zero_state(state);
        let refused = LoadRefusal {
            line: 0,
            refusal: Refusal::TableTooShort,
        };
        return results::of_load(Err(refused));
    }
    load::load_whole(text, literals, ends, sets, kinds, state)
}
