// Families as bits of words, 64 to a word, and what a clause leaves of them (document 02, Note 8: "try every family").
#![tactic(auto)]

ghost use Rattle.std.specs.Prelude.{◌≡◌, ◌*◌, ◌<◌, length};
ghost use Rattle.family_bits.specs.Left as Left;
ghost use Rattle.family_bits.specs.Left.{word_bits, is_left, Marks, Narrowed};

// Whether a number has a bit of `ones`, or lacks one of `zeros`.
fn met(ones: usize, zeros: usize, number: usize) -> bool
    ensures { result ≡ Left.met ones zeros number }
{
    ones & number != 0 || zeros & number != zeros
}

// The numbers below 64 that meet the masks, as bits.
fn low_word(ones: usize, zeros: usize) -> u64
    ensures { Marks result (Left.met ones zeros) }
{
    let mut word = 0;
    for number in (0..64).rev() {
        word = 2 * word + u64::from(met(ones, zeros, number));
    }
    word
}

// Keeps the families that meet the masks: the lower 6 bits of their numbers are the same for every word, the others are those of the word's place.
pub fn keep(left: &mut [u64], ones: usize, zeros: usize)
    ensures { Narrowed left.old left.new (Left.met ones zeros) }
{
    let low = low_word(ones % 64, zeros % 64);
    for (place, word) in left.iter_mut().enumerate() {
        if !met(ones / 64, zeros / 64, place) {
            *word &= low;
        }
    }
}

// Whether a family is kept.
pub fn is_left(left: &[u64], family: usize) -> bool
    requires { family < word_bits * length left.now }
    ensures { result ≡ is_left left.now family }
{
    (left[family / 64] >> (family % 64)) % 2 == 1
}
