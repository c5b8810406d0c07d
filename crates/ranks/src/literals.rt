// The literals of ranks.
ghost use Rattle.std.specs.Prelude.{◌≡◌, ◌++◌, map, ℕ, ◌+◌, ◌*◌, ◌≤◌, ◌<◌, length, drop, get_or};
ghost use Rattle.dqbf.specs.Limits.{literal_range};
ghost use Rattle.ranks.specs.Ranks.{literal_of_rank, side_by_side};

// The literal of a rank.
pub fn literal_of(rank: u32) -> i16
    requires { rank ≤ 2 * literal_range + 1 }
    ensures { result ≡ literal_of_rank rank }
{
    let variable = (rank / 2) as i16;
    if rank % 2 == 0 { variable } else { -variable }
}

// Writes the literals of the ranks to the front of `tail`.
pub fn write_literals(ranks: &[u32], tail: &mut [i16])
    requires in_bounds { length ranks.now ≤ length tail.old }
    requires by_index { (i : ℕ) → i < length ranks.now → get_or ranks.now i 0 ≤ 2 * literal_range + 1 }
    ensures { tail.new ≡ map literal_of_rank ranks.now ++ drop (length ranks.now) tail.old }
{
    for (i, &rank) in ranks.iter().enumerate() {
        tail[i] = literal_of(rank);
    }
}

// Whether two ranks that stand side by side have one variable. All are looked at, so that several can be compared at once.
pub fn has_pair(ranks: &[u32]) -> bool
    ensures { result ≡ side_by_side ranks.now }
{
    let mut found = false;
    for i in 1..ranks.len() {
        found |= ranks[i - 1] / 2 == ranks[i] / 2;
    }
    found
}
