// Whether tables are lent long enough and are well formed (document 01, "The tables are well formed when"): one pass over each table.
ghost use Rattle.std.specs.Prelude.{◌≡◌, cond, true, [], ◌∷◌, ◌≤◌, eqb, ltb, length};
ghost use Rattle.dqbf.specs.Limits.{clause_limit, universal_limit};
ghost use Rattle.dqbf.specs.Model.{empty_from};
ghost use Rattle.sets.specs.Words.{words_each, as_set, as_sets};
ghost use Rattle.tables.specs.Tables.{cut};
ghost use Rattle.tables.specs.Lent.{tables_lent};
ghost use Rattle.dqbf.specs.Refusal.{refusal_in};
ghost use Rattle.tables.specs.WellFormed.{every, long, counts_fit, ends_rise, clause_fits, clauses_fit, new_bit, kind_stands, variable_fits, variables_fit, rest_zero, well_formed};
ghost use Rattle.tables.specs.Unusable.{unusable};

use super::{Lent, State, VariableNumber, adding, entries, kind, zero};
use dqbf::limits::{CLAUSE_LIMIT, LITERAL_LIMIT, UNIVERSAL_LIMIT, VARIABLE_LIMIT, WIDTH_LIMIT};
use dqbf::literal;
use dqbf::refusal::Refusal;

// The counts are within the limits, and add up.
#[tactic(auto, using(std::proofs::lemmas::Bool::Decides::nat_tests), unfolding(crate::specs::WellFormed::counts_fit, crate::specs::WellFormed::within_limits, crate::specs::WellFormed::bound_in_use, crate::specs::WellFormed::clauses_add_up, crate::specs::WellFormed::every))]
fn counts_fit(state: State) -> bool
    ensures { result ≡ counts_fit state }
{
    if state.bound.0 as usize > VARIABLE_LIMIT {
        return false;
    }
    if state.variables.0 as usize > VARIABLE_LIMIT {
        return false;
    }
    if state.universals > UNIVERSAL_LIMIT {
        return false;
    }
    if state.formula.0 as usize > CLAUSE_LIMIT {
        return false;
    }
    if state.clauses.0 as usize > CLAUSE_LIMIT {
        return false;
    }
    if state.literals as usize > LITERAL_LIMIT {
        return false;
    }
    if state.bound > state.variables {
        return false;
    }
    let forks = state.variables.0 - state.bound.0;
    state.clauses.0 as u64 == state.formula.0 as u64 + state.steps.0 as u64 + forks as u64
}

// A universal's set is a single bit, other than those seen before.
fn is_new_bit(seen: [u64; 4], set: [u64; 4]) -> bool
    ensures { result ≡ new_bit (as_set seen) (as_set set) }
{
    if sets::size(set) != 1 {
        return false;
    }
    sets::is_empty(sets::common(seen, set))
}

// Kind 3 stands above V and nowhere else.
#[tactic(auto, using(std::proofs::lemmas::Bool::Decides::nat_tests), unfolding(crate::specs::WellFormed::kind_stands))]
fn kind_stands(kind: u8, declared: bool) -> bool
    ensures { result ≡ kind_stands declared kind }
{
    declared != (kind == kind::FORK)
}

// What is asked of one variable's kind and set, but for the universals' bits.
fn variable_fits(kind: u8, set: [u64; 4], declared: bool, places: [u64; 4]) -> bool
    ensures { result ≡ variable_fits declared (as_set places) kind (as_set set) }
{
    if kind > kind::FORK {
        return false;
    }
    if !kind_stands(kind, declared) {
        return false;
    }
    if kind == kind::UNDECLARED {
        return sets::is_empty(set);
    }
    if kind < kind::EXISTENTIAL {
        return true;
    }
    sets::inside(set, places)
}

// The kinds and sets in use.
fn variables_fit(kinds: &[u8], sets: &[u64], bound: usize, universals: u16) -> bool
    requires { (universals ≤ universal_limit) × (length (as_sets words_each sets.now) ≡ length kinds.now) }
    ensures { result ≡ variables_fit bound universals kinds.now (as_sets words_each sets.now) }
{
    let places = sets::lowest(universals);
    let mut seen = [0u64; 4];
    let mut count: usize = 0;
    for (i, kind) in kinds.iter().enumerate() {
        let set = sets::get(sets, i);
        if !variable_fits(*kind, set, i < bound, places) {
            return false;
        }
        if *kind != kind::UNIVERSAL {
            continue;
        }
        if !is_new_bit(seen, set) {
            return false;
        }
        let united = sets::union(seen, set);
        seen = united;
        count += 1;
    }
    if count != universals as usize {
        return false;
    }
    sets::same(seen, places)
}

// One clause, over variables of the kinds 1 to `highest`.
fn clause_fits(clause: &[i16], kinds: &[u8], highest: u8) -> bool
    ensures { result ≡ clause_fits highest kinds.now clause.now }
{
    if clause.len() > WIDTH_LIMIT {
        return false;
    }
    let mut previous: u16 = 0;
    for literal in clause {
        let variable = literal::variable_of(*literal);
        if variable <= previous {
            return false;
        }
        let kind = entries::kind_of(kinds, VariableNumber(variable as u32));
        if kind == kind::UNDECLARED {
            return false;
        }
        if kind > highest {
            return false;
        }
        previous = variable;
    }
    true
}

// A formula clause is over declared variables only.
#[tactic(auto, using(std::proofs::lemmas::Bool::Decides::nat_tests))]
fn highest_kind(place: usize, formula: usize) -> u8
    ensures { result ≡ cond (ltb place formula) 2 3 }
{
    if place < formula {
        return kind::EXISTENTIAL;
    }
    kind::FORK
}

// The clauses between the ends in use, and the lowest empty one. A function of its own, since its inner loop, over every literal of the tables, wants all registers.
#[inline(never)]
fn clauses_fit(
    literals: &[i16],
    ends: &[u16],
    kinds: &[u8],
    formula: usize,
    count: u16,
    empty: u32,
) -> bool
    requires { (count ≤ length literals.now) × (length ends.now ≤ clause_limit) }
    ensures { result ≡ every (ends_rise 0 ends.now count ∷ clauses_fit formula kinds.now (cut 0 ends.now literals.now)
        ∷ eqb empty (empty_from 1 (cut 0 ends.now literals.now)) ∷ []) }
{
    let total = count as usize;
    let mut start: usize = 0;
    let mut lowest: u32 = 0;
    for (i, end) in ends.iter().enumerate() {
        let end = *end as usize;
        if end < start {
            return false;
        }
        if end > total {
            return false;
        }
        let highest = highest_kind(i, formula);
        if !clause_fits(&literals[start..end], kinds, highest) {
            return false;
        }
        lowest = adding::lowest_after(lowest, i as u32 + 1, end - start);
        start = end;
    }
    if start != total {
        return false;
    }
    empty == lowest
}

impl Lent<'_, '_> {
    // No table is lent too short.
    #[tactic(auto, using(std::proofs::lemmas::Bool::Decides::nat_tests, crate::proofs::Laws::Lent::word_tests), unfolding(crate::specs::WellFormed::long, crate::specs::WellFormed::every))]
    pub fn is_long(&self) -> bool
        ensures { result ≡ long (tables_lent self.now) }
    {
        if self.literals.len() < LITERAL_LIMIT {
            return false;
        }
        if self.ends.len() < CLAUSE_LIMIT {
            return false;
        }
        if self.sets.len() < sets::TABLE_WORDS {
            return false;
        }
        self.kinds.len() >= VARIABLE_LIMIT
    }

    // All entries between the counts and the tables' sizes are 0.
    fn is_rest_zero(&self) -> bool
        requires { (long (tables_lent self.now) ≡ true) × (counts_fit self.now.state ≡ true) }
        ensures { result ≡ rest_zero (tables_lent self.now) self.now.state }
    {
        let literals = self.state.literals as usize;
        let clauses = self.state.clauses.0 as usize;
        let variables = self.state.variables.0 as usize;
        let words = 4 * variables;
        if !zero::all_are(&self.literals[literals..LITERAL_LIMIT], &0) {
            return false;
        }
        if !zero::all_are(&self.ends[clauses..CLAUSE_LIMIT], &0) {
            return false;
        }
        if !zero::all_are(&self.sets[words..sets::TABLE_WORDS], &0) {
            return false;
        }
        zero::all_are(&self.kinds[variables..VARIABLE_LIMIT], &0)
    }

    // The refusals that come before all others, 1 and 2.
    pub fn usable(&self) -> Result<(), Refusal>
        ensures { refusal_in result ≡ unusable (tables_lent self.now) self.now.state }
    {
        if !self.is_long() {
            return Err(Refusal::TableTooShort);
        }
        if !is_well_formed(self) {
            return Err(Refusal::NotWellFormed);
        }
        Ok(())
    }
}

// Tables that are long enough are well formed.
pub fn is_well_formed(lent: &Lent) -> bool
    requires { long (tables_lent lent.now) ≡ true }
    ensures { result ≡ well_formed (tables_lent lent.now) lent.now.state }
{
    let state = lent.state;
    if !counts_fit(state) {
        return false;
    }
    let clauses = state.clauses.0 as usize;
    let variables = state.variables.0 as usize;
    let words = 4 * variables;
    if !clauses_fit(
        lent.literals,
        &lent.ends[..clauses],
        &lent.kinds[..variables],
        state.formula.0 as usize,
        state.literals,
        state.empty.0,
    ) {
        return false;
    }
    if !variables_fit(
        &lent.kinds[..variables],
        &lent.sets[..words],
        state.bound.0 as usize,
        state.universals,
    ) {
        return false;
    }
    lent.is_rest_zero()
}
