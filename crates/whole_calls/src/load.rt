// A load.
ghost use Rattle.std.specs.Prelude.{◌≡◌, ◌≤◌, length};
ghost use Rattle.buffers.specs.Buffers.{buffers_of};
ghost use Rattle.exports.specs.Calls.{After, load_whole};

use codec::state as state_codec;
use dqbf::limits::{CLAUSE_LIMIT, LITERAL_LIMIT};
use sets::TABLE_WORDS;
use tables::{LentMut, State};

// A load into buffers that are long enough. It reads none of their entries, so that nothing is decoded.
pub fn load_whole(
    text: &[u8],
    literals: &mut [u8],
    ends: &mut [u8],
    sets: &mut [u8],
    kinds: &mut [u8],
    state: &mut [u8],
) -> u64
    requires { (16384 ≤ length literals.old) × (4096 ≤ length ends.old) × (16384 ≤ length sets.old) × (512 ≤ length kinds.old) × (16 ≤ length state.old) }
    ensures { ◌≡◌ {A = After}
        (record {
          buffers = buffers_of literals.new ends.new sets.new kinds.new state.new;
          result = result;
        })
        (load_whole (buffers_of literals.old ends.old sets.old kinds.old state.old) text.now) }
{
    let mut literal_table = [0i16; LITERAL_LIMIT];
    let mut end_table = [0u16; CLAUSE_LIMIT];
    let mut set_table = [0u64; TABLE_WORDS];
    let mut tables = LentMut {
        literals: &mut literal_table,
        ends: &mut end_table,
        sets: &mut set_table,
        kinds,
        state: State::default(),
    };
    let answer = dqdimacs::load(text, &mut tables);
    let after = tables.state;
    buffers::write_tables(literals, ends, sets, &literal_table, &end_table, &set_table);
    state_codec::write_state(state, after);
    results::of_load(answer)
}
