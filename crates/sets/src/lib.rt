// Dependency sets as four 64-bit words, lowest bits first, taken and returned by value (document 02, Note 6), and the table that has four words for each variable.
// The laws are for any number of words (specs/Statements.antt); here are the leaves of the tables' width.
#![tactic(auto)]

ghost use Rattle.std.specs.Prelude.{◌≡◌, ◌-◌, ◌^◌, ◌≤◌, ◌<◌, min, eqb, length, get_or};
ghost use Rattle.std.proofs.Math.ListN as List;
ghost use Rattle.dqbf.specs.Limits.{universal_limit};
ghost use Rattle.dqbf.specs.Set as Set;
ghost use Rattle.sets.specs.Words.{words_each, as_set, as_sets, spare_in};

// The words of the sets table: four for each of 512 variables.
pub const TABLE_WORDS: usize = 2048;

pub fn union(s: [u64; 4], t: [u64; 4]) -> [u64; 4]
    ensures { as_set result ≡ Set.union (as_set s) (as_set t) }
{
    [s[0] | t[0], s[1] | t[1], s[2] | t[2], s[3] | t[3]]
}

// The intersection.
pub fn common(s: [u64; 4], t: [u64; 4]) -> [u64; 4]
    ensures { as_set result ≡ Set.common (as_set s) (as_set t) }
{
    [s[0] & t[0], s[1] & t[1], s[2] & t[2], s[3] & t[3]]
}

// Whether t contains s.
pub fn inside(s: [u64; 4], t: [u64; 4]) -> bool
    ensures { result ≡ Set.inside (as_set s) (as_set t) }
{
    (s[0] & t[0] == s[0]) & (s[1] & t[1] == s[1]) & (s[2] & t[2] == s[2]) & (s[3] & t[3] == s[3])
}

// How many universals a set holds.
pub fn size(s: [u64; 4]) -> u32
    ensures { (result ≡ Set.size (as_set s)) × (result ≤ universal_limit) }
{
    s[0].count_ones() + s[1].count_ones() + s[2].count_ones() + s[3].count_ones()
}

// Whether two sets are the same.
pub fn same(s: [u64; 4], t: [u64; 4]) -> bool
    ensures { result ≡ eqb (as_set s) (as_set t) }
{
    (s[0] == t[0]) & (s[1] == t[1]) & (s[2] == t[2]) & (s[3] == t[3])
}

// Whether a set is empty.
pub fn is_empty(s: [u64; 4]) -> bool
    ensures { result ≡ eqb (as_set s) Set.empty_set }
{
    s == [0; 4]
}

// The set of one place.
pub fn single(place: u16) -> [u64; 4]
    requires { place < 256 }
    ensures { as_set result ≡ Set.single place }
{
    let mut words = [0u64; 4];
    let at = (place / 64) as usize;
    words[at] = 1u64 << ((place % 64) as u32);
    words
}

// Of the lowest `count` places, those that the word from place `from` on has.
fn lowest_word(count: u16, from: u16) -> u64
    ensures { result ≡ 2 ^ min (count - from) 64 - 1 }
{
    if count <= from {
        return 0;
    }
    let left = count - from;
    if left >= 64 {
        return 0xFFFF_FFFF_FFFF_FFFF;
    }
    (1u64 << (left as u32)) - 1
}

// The lowest `count` places.
pub fn lowest(count: u16) -> [u64; 4]
    requires { count ≤ 256 }
    ensures { as_set result ≡ 2 ^ count - 1 }
{
    let first = lowest_word(count, 0);
    let second = lowest_word(count, 64);
    let third = lowest_word(count, 128);
    let fourth = lowest_word(count, 192);
    [first, second, third, fourth]
}

// The set at a place of a table.
pub fn get(sets: &[u64], place: usize) -> [u64; 4]
    requires { place < length (as_sets words_each sets.now) }
    ensures { as_set result ≡ get_or (as_sets words_each sets.now) place 0 }
{
    let at = 4 * place;
    [sets[at], sets[at + 1], sets[at + 2], sets[at + 3]]
}

// A set written to a place of a table.
pub fn put(sets: &mut [u64], place: usize, set: [u64; 4])
    requires { place < length (as_sets words_each sets.old) }
    ensures { (as_sets words_each sets.new ≡ List.set (as_sets words_each sets.old) place (as_set set))
        × (spare_in words_each sets.new ≡ spare_in words_each sets.old) }
{
    let at = 4 * place;
    sets[at] = set[0];
    sets[at + 1] = set[1];
    sets[at + 2] = set[2];
    sets[at + 3] = set[3];
}
