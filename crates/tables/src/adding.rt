// Clauses, variables and steps added to the tables. The literals of a clause are written first, behind the last used one.
ghost use Rattle.std.specs.Prelude.{◌≡◌, ◌+◌, ◌≤◌, ◌<◌, length};
ghost use Rattle.std.proofs.Math.ListN as List;
ghost use Rattle.dqbf.specs.Limits.{clause_limit, variable_limit};
ghost use Rattle.sets.specs.Words.{words_each, as_set, as_sets, spare_in};
ghost use Rattle.tables.specs.Adding.{lowest_after, clause_ended, variable_added, step_counted, formula_counted, full, RoomFor};
ghost use Rattle.tables.specs.Lent.{SameLoans};

use super::{ClauseNumber, LentMut, State, StepNumber, VariableNumber, kind};
use dqbf::limits::{CLAUSE_LIMIT, LITERAL_LIMIT, VARIABLE_LIMIT};

// The lowest empty clause, after a clause with a number and a width was added.
#[tactic(auto, using(std::proofs::lemmas::Bool::Decides::nat_tests), unfolding(crate::specs::Adding::lowest_after))]
pub fn lowest_after(lowest: u32, number: u32, width: usize) -> u32
    ensures { result ≡ lowest_after lowest number width }
{
    if lowest == 0 && width == 0 {
        number
    } else {
        lowest
    }
}

impl State {
    // Whether so many clauses, literals and variables more would not fit.
    #[tactic(auto, using(std::proofs::lemmas::Bool::Decides::nat_tests), unfolding(crate::specs::Adding::full))]
    pub fn is_full(self, clauses: u32, literals: u32, variables: u32) -> bool
        ensures { result ≡ full self clauses literals variables }
    {
        self.clauses.0 as u64 + clauses as u64 > CLAUSE_LIMIT as u64
            || self.literals as u64 + literals as u64 > LITERAL_LIMIT as u64
            || self.variables.0 as u64 + variables as u64 > VARIABLE_LIMIT as u64
    }

    // One more clause of so many literals.
    #[tactic(auto, unfolding(crate::specs::Adding::clause_ended))]
    fn with_clause(self, width: u16) -> State
        requires { RoomFor self 1 width 0 }
        ensures { result ≡ clause_ended self width }
    {
        let number = self.clauses.0 + 1;
        let lowest = lowest_after(self.empty.0, number, width as usize);
        State {
            clauses: ClauseNumber(number),
            literals: self.literals + width,
            empty: ClauseNumber(lowest),
            ..self
        }
    }

    // One more variable in use.
    #[tactic(auto, unfolding(crate::specs::Adding::variable_added))]
    fn with_variable(self) -> State
        requires { RoomFor self 0 0 1 }
        ensures { result ≡ variable_added self }
    {
        State {
            variables: VariableNumber(self.variables.0 + 1),
            ..self
        }
    }

    // One more accepted step.
    #[tactic(auto, unfolding(crate::specs::Adding::step_counted))]
    fn with_step(self) -> State
        requires { self.steps.0 < clause_limit }
        ensures { result ≡ step_counted self }
    {
        State {
            steps: StepNumber(self.steps.0 + 1),
            ..self
        }
    }

    // The last clause is a formula clause.
    #[tactic(auto, unfolding(crate::specs::Adding::formula_counted))]
    fn with_formula_clause(self) -> State
        requires { self.formula.0 < clause_limit }
        ensures { result ≡ formula_counted self }
    {
        State {
            formula: ClauseNumber(self.formula.0 + 1),
            ..self
        }
    }
}

impl LentMut<'_> {
    // The clause that stands behind the last one in the literals, so many literals wide, is one more clause.
    fn end_clause(&mut self, width: u16)
        requires { RoomFor self.old.state 1 width 0 × (clause_limit ≤ length self.old.ends.now) }
        ensures loans { SameLoans self.old self.new }
        ensures state { self.new.state ≡ clause_ended self.old.state width }
        ensures ends { self.new.ends.now ≡ List.set self.old.ends.now self.old.state.clauses.0 (self.old.state.literals + width) }
        ensures rest { (self.new.literals.now ≡ self.old.literals.now) × (self.new.sets.now ≡ self.old.sets.now) × (self.new.kinds.now ≡ self.old.kinds.now) }
    {
        self.ends[self.state.clauses.0 as usize] = self.state.literals + width;
        self.state = self.state.with_clause(width);
    }

    // One more variable in use, a fork variable with its set.
    fn add_variable(&mut self, set: [u64; 4])
        requires { RoomFor self.old.state 0 0 1 × (variable_limit ≤ length (as_sets words_each self.old.sets.now)) × (variable_limit ≤ length self.old.kinds.now) }
        ensures loans { SameLoans self.old self.new }
        ensures state { self.new.state ≡ variable_added self.old.state }
        ensures sets { as_sets words_each self.new.sets.now ≡ List.set (as_sets words_each self.old.sets.now) self.old.state.variables.0 (as_set set) }
        ensures spare { spare_in words_each self.new.sets.now ≡ spare_in words_each self.old.sets.now }
        ensures kinds { self.new.kinds.now ≡ List.set self.old.kinds.now self.old.state.variables.0 3 }
        ensures rest { (self.new.literals.now ≡ self.old.literals.now) × (self.new.ends.now ≡ self.old.ends.now) }
    {
        let place = self.state.variables.0 as usize;
        sets::put(self.sets, place, set);
        self.kinds[place] = kind::FORK;
        self.state = self.state.with_variable();
    }
}

// One more formula clause.
#[tactic(auto, unfolding(crate::specs::Adding::clause_ended, crate::specs::Adding::variable_added))]
pub fn add_formula_clause(tables: &mut LentMut, width: u16)
    requires { RoomFor tables.old.state 1 width 0 × (clause_limit ≤ length tables.old.ends.now) × (tables.old.state.formula.0 < clause_limit) }
    ensures loans { SameLoans tables.old tables.new }
    ensures state { tables.new.state ≡ formula_counted (clause_ended tables.old.state width) }
    ensures ends { tables.new.ends.now ≡ List.set tables.old.ends.now tables.old.state.clauses.0 (tables.old.state.literals + width) }
    ensures rest { (tables.new.literals.now ≡ tables.old.literals.now) × (tables.new.sets.now ≡ tables.old.sets.now) × (tables.new.kinds.now ≡ tables.old.kinds.now) }
{
    tables.end_clause(width);
    tables.state = tables.state.with_formula_clause();
}

// An accepted step that adds one clause.
#[tactic(auto, unfolding(crate::specs::Adding::clause_ended, crate::specs::Adding::variable_added))]
pub fn add_clause(tables: &mut LentMut, width: u16)
    requires { RoomFor tables.old.state 1 width 0 × (clause_limit ≤ length tables.old.ends.now) × (tables.old.state.steps.0 < clause_limit) }
    ensures loans { SameLoans tables.old tables.new }
    ensures state { tables.new.state ≡ step_counted (clause_ended tables.old.state width) }
    ensures ends { tables.new.ends.now ≡ List.set tables.old.ends.now tables.old.state.clauses.0 (tables.old.state.literals + width) }
    ensures rest { (tables.new.literals.now ≡ tables.old.literals.now) × (tables.new.sets.now ≡ tables.old.sets.now) × (tables.new.kinds.now ≡ tables.old.kinds.now) }
{
    tables.end_clause(width);
    tables.state = tables.state.with_step();
}

// An accepted fork: two clauses and a variable with its set.
#[tactic(auto, unfolding(crate::specs::Adding::clause_ended, crate::specs::Adding::variable_added))]
pub fn add_fork(tables: &mut LentMut, left: u16, right: u16, set: [u64; 4])
    requires { RoomFor tables.old.state 2 (left + right) 1 × (clause_limit ≤ length tables.old.ends.now) × (variable_limit ≤ length (as_sets words_each tables.old.sets.now))
        × (variable_limit ≤ length tables.old.kinds.now) × (tables.old.state.steps.0 < clause_limit) }
    ensures loans { SameLoans tables.old tables.new }
    ensures state { tables.new.state ≡ step_counted (variable_added (clause_ended (clause_ended tables.old.state left) right)) }
    ensures ends { tables.new.ends.now
        ≡ List.set (List.set tables.old.ends.now tables.old.state.clauses.0 (tables.old.state.literals + left)) (tables.old.state.clauses.0 + 1) (tables.old.state.literals + left + right) }
    ensures sets { as_sets words_each tables.new.sets.now ≡ List.set (as_sets words_each tables.old.sets.now) tables.old.state.variables.0 (as_set set) }
    ensures spare { spare_in words_each tables.new.sets.now ≡ spare_in words_each tables.old.sets.now }
    ensures kinds { tables.new.kinds.now ≡ List.set tables.old.kinds.now tables.old.state.variables.0 3 }
    ensures literals { tables.new.literals.now ≡ tables.old.literals.now }
{
    tables.end_clause(left);
    tables.end_clause(right);
    tables.add_variable(set);
    tables.state = tables.state.with_step();
}
