// Tables that are well formed, and one change to them.
use std::io;
use tables::{ClauseNumber, Lent, LentMut, State, StepNumber, VariableNumber};

// A label and a number on a line.
pub fn line(rt: &impl Print, label: &str, number: u64) -> io::Result<()> {
    println!(rt; "{label} {number}")
}

// The number of the refusal of lent tables; 0: well formed.
pub fn judged(rt: &impl Print, label: &str, tables: &Lent) -> io::Result<()> {
    let number = match tables.usable() {
        Ok(()) => 0,
        Err(refusal) => refusal.number(),
    };
    line(rt, label, u64::from(number))
}

// Tables longer than the stated sizes, with their state.
#[derive(Drop)]
pub struct Sample {
    pub literals: [i16; 8200],
    pub ends: [u16; 2056],
    pub sets: [u64; 2083],
    pub kinds: [u8; 520],
    pub state: State,
}

impl Sample {
    // Zero tables with a state.
    pub fn zero(state: State) -> Sample {
        Sample {
            literals: [0; 8200],
            ends: [0; 2056],
            sets: [0; 2083],
            kinds: [0; 520],
            state,
        }
    }

    // Universals 1 and 2; 3 and 4 existential with the sets {1} and {2}; 5 undeclared; 6 a fork variable with the empty set.
    // Formula clauses {1, 4} and {2, -3}; then {4, -6}, {1}, the empty clause and {6}. The last entry of each table is marked.
    pub fn marked() -> Sample {
        let mut sample = Sample::zero(sample_state());
        sample.literals[..8].copy_from_slice(&[1, 4, 2, -3, 4, -6, 1, 6]);
        sample.literals[8199] = 7;
        sample.ends[..6].copy_from_slice(&[2, 4, 6, 7, 7, 8]);
        sample.ends[2055] = 7;
        sample.sets[..13].copy_from_slice(&[1, 0, 0, 0, 2, 0, 0, 0, 1, 0, 0, 0, 2]);
        sample.sets[2082] = 7;
        sample.kinds[..6].copy_from_slice(&[1, 1, 2, 2, 0, 3]);
        sample.kinds[519] = 7;
        sample
    }

    pub fn lent(&self) -> Lent<'_, '_> {
        Lent {
            literals: &self.literals,
            ends: &self.ends,
            sets: &self.sets,
            kinds: &self.kinds,
            state: self.state,
        }
    }

    pub fn lent_mut(&mut self) -> LentMut<'_> {
        let Sample {
            literals,
            ends,
            sets,
            kinds,
            state,
        } = self;
        LentMut {
            literals,
            ends,
            sets,
            kinds,
            state: *state,
        }
    }
}

pub fn sample_state() -> State {
    State {
        bound: VariableNumber(5),
        variables: VariableNumber(6),
        universals: 2,
        formula: ClauseNumber(2),
        clauses: ClauseNumber(6),
        literals: 8,
        steps: StepNumber(3),
        empty: ClauseNumber(5),
    }
}

// Zero tables with a state.
pub fn with_zeros(rt: &impl Print, label: &str, state: State) -> io::Result<()> {
    judged(rt, label, &Sample::zero(state).lent())
}

// The sample with a state.
pub fn with_state(rt: &impl Print, label: &str, state: State) -> io::Result<()> {
    let sample = Sample {
        state,
        ..Sample::marked()
    };
    judged(rt, label, &sample.lent())
}

// Two neighbouring literals.
pub fn with_literals(
    rt: &impl Print,
    label: &str,
    place: usize,
    literal: i16,
    next: i16,
) -> io::Result<()> {
    let mut sample = Sample::marked();
    if place < 8199 {
        sample.literals[place] = literal;
        sample.literals[place + 1] = next;
    }
    judged(rt, label, &sample.lent())
}

pub fn with_end(rt: &impl Print, label: &str, place: usize, end: u16) -> io::Result<()> {
    let mut sample = Sample::marked();
    if let Some(entry) = sample.ends.get_mut(place) {
        *entry = end;
    }
    judged(rt, label, &sample.lent())
}

pub fn with_sets(
    rt: &impl Print,
    label: &str,
    place: usize,
    set: u64,
    other_place: usize,
    other: u64,
) -> io::Result<()> {
    let mut sample = Sample::marked();
    if let Some(entry) = sample.sets.get_mut(place) {
        *entry = set;
    }
    if let Some(entry) = sample.sets.get_mut(other_place) {
        *entry = other;
    }
    judged(rt, label, &sample.lent())
}

pub fn with_kind(rt: &impl Print, label: &str, place: usize, kind: u8) -> io::Result<()> {
    let mut sample = Sample::marked();
    if let Some(entry) = sample.kinds.get_mut(place) {
        *entry = kind;
    }
    judged(rt, label, &sample.lent())
}
