// Buffers: their sizes, and the tables in them.
#![tactic(auto)]

ghost use Rattle.std.specs.Prelude.{◌≡◌, cond, ◌*◌, ◌-◌, ◌≤◌, leb, length, replicate};
ghost use Rattle.std.specs.Fn.{CalledAt};
ghost use Rattle.sets.specs.Words.{words_each, table_words, as_sets, table_of};
ghost use Rattle.codec.specs.Bytes.{entries, bytes_of, literals_in, over};
ghost use Rattle.codec.specs.Bytes as Bytes;
ghost use Rattle.buffers.specs.Buffers.{buffers_of, state_size, whole, tables_in, state_in};
ghost use Rattle.tables.specs.Lent.{tables_lent};
ghost use Rattle.tables.specs.Tables.{entry};
ghost use Rattle.tables.specs.declared.Lent.{Lent};

use codec::{state, table};
use dqbf::limits::{CLAUSE_LIMIT, LITERAL_LIMIT, VARIABLE_LIMIT};
use sets::TABLE_WORDS;
use tables::Lent;

const LITERAL_BYTES: usize = 2 * LITERAL_LIMIT;

const END_BYTES: usize = 2 * CLAUSE_LIMIT;

const SET_BYTES: usize = 8 * TABLE_WORDS;

const KIND_BYTES: usize = VARIABLE_LIMIT;

const STATE_BYTES: usize = 16;

// Whether no buffer has too few bytes.
pub fn is_whole(literals: &[u8], ends: &[u8], sets: &[u8], kinds: &[u8], state: &[u8]) -> bool
    ensures { result ≡ whole (buffers_of literals.now ends.now sets.now kinds.now state.now) }
{
    LITERAL_BYTES <= literals.len()
        && END_BYTES <= ends.len()
        && SET_BYTES <= sets.len()
        && KIND_BYTES <= kinds.len()
        && STATE_BYTES <= state.len()
}

// Three tables from their bytes.
pub fn read_tables(
    literals: &mut [i16],
    ends: &mut [u16],
    sets: &mut [u64],
    literal_bytes: &[u8],
    end_bytes: &[u8],
    set_bytes: &[u8],
)
    requires { (2 * length literals.old ≤ length literal_bytes.now) × (2 * length ends.old ≤ length end_bytes.now)
        × (8 * length sets.old ≤ length set_bytes.now) }
    ensures { (literals.new ≡ literals_in (length literals.old) literal_bytes.now)
        × (ends.new ≡ entries 2 (length ends.old) end_bytes.now)
        × (sets.new ≡ entries 8 (length sets.old) set_bytes.now) }
{
    table::read_table(literals, literal_bytes);
    table::read_table(ends, end_bytes);
    table::read_table(sets, set_bytes);
}

// Calls a function at the tables and the state in the buffers, which are decoded into locals. The kinds are lent as they are. The function is lent, so that it
// is known what the call wrote.
pub fn with_tables<R, F: FnMut(&Lent) -> R>(
    literals: &[u8],
    ends: &[u8],
    sets: &[u8],
    kinds: &[u8],
    state: &[u8],
    call: &mut F,
) -> R
    requires sizes { (16384 ≤ length literals.now) × (4096 ≤ length ends.now) × (16384 ≤ length sets.now) × (16 ≤ length state.now) }
    requires callable { F.IsAlwaysCallable call.old }
    ensures { (lent : Lent) × (tables_lent lent ≡ tables_in (buffers_of literals.now ends.now sets.now kinds.now state.now))
        × (lent.state ≡ state_in (buffers_of literals.now ends.now sets.now kinds.now state.now))
        × CalledAt F.FnMut call.old lent result call.new }
{
    let mut literal_table = [0i16; LITERAL_LIMIT];
    let mut end_table = [0u16; CLAUSE_LIMIT];
    let mut set_table = [0u64; TABLE_WORDS];
    read_tables(
        &mut literal_table,
        &mut end_table,
        &mut set_table,
        literals,
        ends,
        sets,
    );
    call(&Lent {
        literals: &literal_table,
        ends: &end_table,
        sets: &set_table,
        kinds,
        state: state::read_state(state),
    })
}

// Three tables back into their bytes. The words of the sets are those of the sets that they hold.
pub fn write_tables(
    literal_bytes: &mut [u8],
    end_bytes: &mut [u8],
    set_bytes: &mut [u8],
    literals: &[i16],
    ends: &[u16],
    sets: &[u64],
)
    requires { (2 * length literals.now ≤ length literal_bytes.old) × (2 * length ends.now ≤ length end_bytes.old)
        × (8 * length sets.now ≤ length set_bytes.old) × (length sets.now ≡ table_words) }
    ensures { (literal_bytes.new ≡ over (Bytes.literal_bytes literals.now) literal_bytes.old)
        × (end_bytes.new ≡ over (bytes_of 2 ends.now) end_bytes.old)
        × (set_bytes.new ≡ over (bytes_of 8 (table_of words_each (as_sets words_each sets.now))) set_bytes.old) }
{
    table::write_table(literal_bytes, literals);
    table::write_table(end_bytes, ends);
    table::write_table(set_bytes, sets);
}

// Zeros over a state that is lent whole; a shorter one stays.
pub fn zero_state(state: &mut [u8])
    ensures { state.new ≡ cond (leb state_size (length state.old)) (over (replicate state_size 0) state.old) state.old }
{
    if state.len() < STATE_BYTES {
        return;
    }
    state[..STATE_BYTES].fill(0);
}

// Where a clause starts: the end of the one before it; 0 for the first, and where there is no such end.
pub fn clause_start(ends: &[u16], clause: u32) -> u16
    ensures { result ≡ entry ends.now (clause - 1) }
{
    let Some(place) = clause.checked_sub(2) else {
        return 0;
    };
    ends.get(place as usize).copied().unwrap_or(0)
}
