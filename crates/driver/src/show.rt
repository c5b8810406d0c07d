// The exported show: an exported function returns no reference, so that it tells place and length in the caller's own literals.
ghost use Rattle.std.specs.Prelude.{◌≡◌};
ghost use Rattle.buffers.specs.Buffers.{buffers_of};
ghost use Rattle.exports.specs.Calls.{show_bytes};

use dqbf::refusal::Refusal;
use tables::{ClauseNumber, Lent};

// Where a clause stands in the literals; the empty stretch at the start for an unknown number, short or ill-formed tables.
#[tactic(auto, using(std::proofs::lemmas::Bool::Decides::nat_tests), unfolding(exports::specs::Calls::show_bytes, results::specs::Results::show_result, results::specs::Results::stretch_result, buffers::specs::Buffers::whole, buffers::specs::Buffers::state_whole, tables::specs::WellFormed::every))]
#[unsafe(no_mangle)]
pub extern "C" fn kefthrun_show(
    literals: &[u8],
    ends: &[u8],
    sets: &[u8],
    kinds: &[u8],
    state: &[u8],
    clause: u32,
) -> u64
    ensures { result ≡ show_bytes (buffers_of literals.now ends.now sets.now kinds.now state.now) clause }
{
    if !buffers::is_whole(literals, ends, sets, kinds, state) {
        return results::of_show(0, Err(Refusal::TableTooShort));
    }
    let mut ask = |tables: &Lent| {
        let start = buffers::clause_start(tables.ends, clause);
        results::of_show(
            start,
            questions::clause_length(tables, ClauseNumber(clause)),
        )
    };
    buffers::with_tables(literals, ends, sets, kinds, state, &mut ask)
}
