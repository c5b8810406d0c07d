// A run.
ghost use Rattle.std.specs.Prelude.{◌≡◌, ◌≤◌, length};
ghost use Rattle.buffers.specs.Buffers.{buffers_of};
ghost use Rattle.exports.specs.Calls.{After, run_whole};

use codec::state as state_codec;
use dqbf::limits::{CLAUSE_LIMIT, LITERAL_LIMIT};
use sets::TABLE_WORDS;
use steps::run;
use tables::LentMut;

// A run over buffers that are long enough.
#[tactic(auto, unfolding(exports::specs::Calls::ran, buffers::specs::Buffers::written, buffers::specs::Buffers::tables_in, buffers::specs::Buffers::state_in))]
pub fn run_whole(
    records: &[u8],
    literals: &mut [u8],
    ends: &mut [u8],
    sets: &mut [u8],
    kinds: &mut [u8],
    state: &mut [u8],
) -> u64
    requires { (16384 ≤ length literals.old) × (4096 ≤ length ends.old) × (16384 ≤ length sets.old) × (16 ≤ length state.old) }
    ensures { ◌≡◌ {A = After}
        (record {
          buffers = buffers_of literals.new ends.new sets.new kinds.new state.new;
          result = result;
        })
        (run_whole (buffers_of literals.old ends.old sets.old kinds.old state.old) records.now) }
{
    let mut literal_table = [0i16; LITERAL_LIMIT];
    let mut end_table = [0u16; CLAUSE_LIMIT];
    let mut set_table = [0u64; TABLE_WORDS];
    buffers::read_tables(
        &mut literal_table,
        &mut end_table,
        &mut set_table,
        literals,
        ends,
        sets,
    );
    let before = state_codec::read_state(state);
    let mut tables = LentMut {
        literals: &mut literal_table,
        ends: &mut end_table,
        sets: &mut set_table,
        kinds,
        state: before,
    };
    let answer = run::run(records, &mut tables);
    let after = tables.state;
    buffers::write_tables(literals, ends, sets, &literal_table, &end_table, &set_table);
    state_codec::write_state(state, after);
    results::of_run(answer)
}
