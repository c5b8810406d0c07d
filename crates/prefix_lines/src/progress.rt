// How far the lines have come, by value; the counts so far are in the tables' state.
#[derive(Clone, Copy, PartialEq, Eq)]
pub enum Phase {
    // before the header
    Opening,
    PrefixLines,
    ClauseLines,
}

#[derive(Clone, Copy, PartialEq, Eq)]
pub struct Progress {
    pub phase: Phase,
    // the header's C
    pub count: u32,
}
