// The exported question about the length of a clause.
ghost use Rattle.std.specs.Prelude.{◌≡◌};
ghost use Rattle.buffers.specs.Buffers.{buffers_of};
ghost use Rattle.exports.specs.Calls.{clause_bytes};

use dqbf::refusal::Refusal;
use tables::{ClauseNumber, Lent};

// The length of a clause.
#[tactic(auto, using(std::proofs::lemmas::Bool::Decides::nat_tests), unfolding(exports::specs::Calls::clause_bytes, buffers::specs::Buffers::whole, buffers::specs::Buffers::state_whole, tables::specs::WellFormed::every))]
#[unsafe(no_mangle)]
pub extern "C" fn kefthrun_clause(
    literals: &[u8],
    ends: &[u8],
    sets: &[u8],
    kinds: &[u8],
    state: &[u8],
    clause: u32,
) -> u64
    ensures { result ≡ clause_bytes (buffers_of literals.now ends.now sets.now kinds.now state.now) clause }
{
    if !buffers::is_whole(literals, ends, sets, kinds, state) {
        return results::of_clause(Err(Refusal::TableTooShort));
    }
    let mut ask = |tables: &Lent| questions::clause_length(tables, ClauseNumber(clause));
    let answer = buffers::with_tables(literals, ends, sets, kinds, state, &mut ask);
    results::of_clause(answer)
}
