// The exported question about kind and set size of a variable.
ghost use Rattle.std.specs.Prelude.{◌≡◌};
ghost use Rattle.buffers.specs.Buffers.{buffers_of};
ghost use Rattle.exports.specs.Calls.{variable_bytes};

use dqbf::refusal::Refusal;
use tables::{Lent, VariableNumber};

// Kind and number of universals of a variable.
#[tactic(auto, using(std::proofs::lemmas::Bool::Decides::nat_tests), unfolding(exports::specs::Calls::variable_bytes, buffers::specs::Buffers::whole, buffers::specs::Buffers::state_whole, tables::specs::WellFormed::every))]
#[unsafe(no_mangle)]
pub extern "C" fn kefthrun_variable(
    literals: &[u8],
    ends: &[u8],
    sets: &[u8],
    kinds: &[u8],
    state: &[u8],
    variable: u32,
) -> u64
    ensures { result ≡ variable_bytes (buffers_of literals.now ends.now sets.now kinds.now state.now) variable }
{
    if !buffers::is_whole(literals, ends, sets, kinds, state) {
        return results::of_variable(Err(Refusal::TableTooShort));
    }
    let mut ask = |tables: &Lent| questions::variable(tables, VariableNumber(variable));
    let answer = buffers::with_tables(literals, ends, sets, kinds, state, &mut ask);
    results::of_variable(answer)
}
