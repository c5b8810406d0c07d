// The function tables of a formula's existentials, one behind the other as bits of a family's number (document 02, Note 8).
#![tactic(auto)]

ghost use Rattle.std.specs.Prelude.{◌≡◌, cond, ◌^◌, ◌≤◌, ◌<◌, eqb, length};
ghost use Rattle.dqbf.specs.Limits.{small_universals};
ghost use Rattle.dqbf.specs.Set as Set;
ghost use Rattle.deciding.specs.Deciding as Deciding;
ghost use Rattle.deciding.specs.Deciding.{total_bits};
ghost use Rattle.sets.specs.Words.{words_each, as_sets};
ghost use Rattle.tables.specs.FormulaEntries.{declarations};
ghost use Rattle.function_tables.specs.Layout.{AllSmall, SmallSets, LaidOut};

use tables::kind;

// The sets over at most 4 universals, a byte each.
pub fn small_sets(out: &mut [u8], sets: &[u64])
    requires { (length out.old ≡ length (as_sets words_each sets.now)) × AllSmall (as_sets words_each sets.now) }
    ensures { out.new ≡ as_sets words_each sets.now }
{
    for (i, small) in out.iter_mut().enumerate() {
        let words = sets::get(sets, i);
        *small = words[0] as u8;
    }
}

// The place of a setting in the table of a set: its values at the set's places, the lowest place least.
pub fn row(places: u32, set: u32, setting: u32) -> u32
    requires { places ≤ small_universals }
    ensures { (result ≡ Deciding.row places set setting) × (result < 2 ^ places) }
{
    let mut row = 0;
    for place in (0..places).rev() {
        if (set >> place) % 2 == 1 {
            row = (setting >> place) % 2 + 2 * row;
        }
    }
    row
}

// How many bits the table of a variable has.
fn table_bits(kind: u8, set: u8) -> u32
    requires { set < 2 ^ small_universals }
    ensures { (result ≡ cond (eqb kind 2) (2 ^ Set.size set) 0) × (result ≤ 16) }
{
    if kind != kind::EXISTENTIAL {
        return 0;
    }
    1u32 << set.count_ones()
}

// Where the table of each variable starts, and how many bits all of them have.
pub fn lay_out(offsets: &mut [u16], kinds: &[u8], sets: &[u8]) -> u32
    requires { SmallSets kinds.now sets.now × (length kinds.now ≤ length offsets.old) }
    ensures { (result ≡ total_bits (declarations kinds.now sets.now)) × LaidOut (declarations kinds.now sets.now) offsets.new }
{
    let mut total = 0;
    for i in 0..kinds.len() {
        offsets[i] = total as u16;
        total += table_bits(kinds[i], sets[i]);
    }
    total
}
