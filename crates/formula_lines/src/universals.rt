// The universals, listed once. `kinds` has those of the variables 1 to V, `sets` the words of their sets, `names` are universals.
ghost use Rattle.std.specs.Prelude.{◌≡◌, ◌≤◌, length, take, find};
ghost use Rattle.dqbf.specs.Limits.{variable_limit};
ghost use Rattle.dqbf.specs.Model.{universals_in};
ghost use Rattle.sets.specs.Words.{words_each, as_set, as_sets};
ghost use Rattle.formula_lines.specs.Working.{universal_names, is_with};

use tables::{VariableNumber, entries, kind as kinds_of};

// Lists the universals, ascending; answers how many there are.
pub fn list_universals(names: &mut [u32], kinds: &[u8]) -> usize
    requires { (universals_in kinds.now ≤ length names.old) × (length kinds.now ≤ variable_limit) }
    ensures { (result ≤ length names.new) × (take result names.new ≡ universal_names kinds.now) }
{
    let mut count = 0;
    for (i, &kind) in kinds.iter().enumerate() {
        if kind == kinds_of::UNIVERSAL {
            names[count] = i as u32 + 1;
            count += 1;
        }
    }
    count
}

// The one of the universals that has a set.
#[tactic(auto, unfolding(crate::specs::Working::is_with))]
pub fn universal_with(names: &[u32], sets: &[u64], set: [u64; 4]) -> Option<u32>
    ensures { result ≡ find (is_with (as_sets words_each sets.now) (as_set set)) names.now }
{
    names.iter().copied().find(|variable| sets::same(
        entries::set_of(sets, VariableNumber(*variable)),
        set,
    ))
}
