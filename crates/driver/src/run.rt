// The exported run.
ghost use Rattle.buffers.specs.Buffers.{buffers_of};
ghost use Rattle.refusals.specs.Statements.{RunPromised};

use dqbf::refusal::Refusal;
use whole_calls::run;

// Runs a list of records over the tables and the state in the driver's buffers.
#[tactic(auto, using(std::proofs::lemmas::Bool::Decides::nat_tests), unfolding(exports::specs::Calls::run_bytes, exports::specs::Calls::run_short, buffers::specs::Buffers::whole, buffers::specs::Buffers::state_whole, tables::specs::WellFormed::every))]
#[unsafe(no_mangle)]
pub extern "C" fn kefthrun_run(
    records: &[u8],
    literals: &mut [u8],
    ends: &mut [u8],
    sets: &mut [u8],
    kinds: &mut [u8],
    state: &mut [u8],
) -> u64
    ensures { RunPromised (buffers_of literals.old ends.old sets.old kinds.old state.old) records.now
        (record {
          buffers = buffers_of literals.new ends.new sets.new kinds.new state.new;
          result = result;
        }) }
{
    if !buffers::is_whole(literals, ends, sets, kinds, state) {
        return results::of_run(Err(Refusal::TableTooShort.into()));
    }
    run::run_whole(records, literals, ends, sets, kinds, state)
}
