// A small formula's variables, and where their function tables start.
ghost use Rattle.clause_masks.specs.Small.{SmallBits};

// The kinds and sets of the variables, the places of their tables in a family's number, and the number of universals.
#[derive(Clone, Copy)]
pub struct Layout<'a> {
    pub kinds: &'a [u8],
    pub sets: &'a [u8],
    pub offsets: &'a [u16],
    pub universals: u32,
    ghost small: { SmallBits kinds.now sets.now offsets.now universals },
}
