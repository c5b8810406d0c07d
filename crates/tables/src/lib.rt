// The four lent tables with their state (document 01, "The four lent tables"): what they hold, when they are well formed, and how clauses and variables are added to them.
#![tactic(auto)]

ghost use Rattle.std.specs.Prelude.{◌≡◌};
ghost use Rattle.tables.specs.Lent.{tables_lent, tables_held, SamePlaces};

// Clause, step and variable numbers are three separate counters.
#[derive(Clone, Copy, PartialEq, Eq, PartialOrd, Ord, Default)]
pub struct ClauseNumber(pub u32);

#[derive(Clone, Copy, PartialEq, Eq, PartialOrd, Ord, Default)]
pub struct StepNumber(pub u32);

#[derive(Clone, Copy, PartialEq, Eq, PartialOrd, Ord, Default)]
pub struct VariableNumber(pub u32);

// The small state by value that goes with the tables; all zero by default.
#[derive(Clone, Copy, PartialEq, Eq, Default)]
pub struct State {
    // the header's V
    pub bound: VariableNumber,
    // variables in use
    pub variables: VariableNumber,
    pub universals: u16,
    // formula clauses
    pub formula: ClauseNumber,
    pub clauses: ClauseNumber,
    pub literals: u16,
    // accepted steps
    pub steps: StepNumber,
    // the lowest empty clause; 0: none
    pub empty: ClauseNumber,
}

// The four tables to be read, with their state. The literals are lent for a time of their own: a shown clause keeps them lent, and no other table.
#[derive(Clone, Copy)]
pub struct Lent<'l, 'a> {
    pub literals: &'l [i16],
    pub ends: &'a [u16],
    pub sets: &'a [u64],
    pub kinds: &'a [u8],
    pub state: State,
}

// The four tables to be changed, with their state.
#[derive(Drop)]
pub struct LentMut<'a> {
    pub literals: &'a mut [i16],
    pub ends: &'a mut [u16],
    pub sets: &'a mut [u64],
    pub kinds: &'a mut [u8],
    pub state: State,
}

impl LentMut<'_> {
    // The same to be read.
    pub fn view(&self) -> Lent<'_, '_>
        ensures literals { result.literals.now ≡ self.now.literals.now }
        ensures ends { result.ends.now ≡ self.now.ends.now }
        ensures sets { result.sets.now ≡ self.now.sets.now }
        ensures kinds { result.kinds.now ≡ self.now.kinds.now }
        ensures tables { tables_lent result ≡ tables_held self.now }
        ensures state { result.state ≡ self.now.state }
        ensures places { SamePlaces self.now result }
    {
        Lent {
            literals: self.literals,
            ends: self.ends,
            sets: self.sets,
            kinds: self.kinds,
            state: self.state,
        }
    }
}

pub mod adding;
pub mod entries;
pub mod formed;
pub mod kind;
pub mod zero;
