// Small formulas decided by trying every family (document 02, Note 8).
#![tactic(auto)]

ghost use Rattle.std.specs.Prelude.{◌≡◌, true, Ok, ◌*◌, ◌^◌, ◌≤◌, length};
ghost use Rattle.dqbf.specs.Limits.{small_bits};
ghost use Rattle.dqbf.specs.Spelled.{formula_in};
ghost use Rattle.deciding.specs.Deciding as Deciding;
ghost use Rattle.deciding.specs.Deciding.{least_from, decided};
ghost use Rattle.sets.specs.Words.{words_each, as_sets};
ghost use Rattle.tables.specs.Tables.{cut, model_in};
ghost use Rattle.tables.specs.Lent.{tables_lent};
ghost use Rattle.tables.specs.WellFormed.{long, well_formed};
ghost use Rattle.family_bits.specs.Left.{word_bits, is_left};
ghost use Rattle.function_tables.specs.Layout.{AllSmall};
ghost use Rattle.decider.specs.Decisions.{decision_told, decision_answer};
ghost use Rattle.decider.specs.Entries.{SmallFormula, small_formula_prop};

use clause_masks::layout::Layout;
use dqbf::limits::{SMALL_BITS, SMALL_UNIVERSALS, VARIABLE_LIMIT};
use dqbf::refusal::Refusal;
use tables::Lent;

// 1,024 words have a bit for each of 65,536 families.
const FAMILY_WORDS: usize = 1024;

// The entries of a formula of at most 4 universals: `kinds` and `sets` of the variables 1 to V, a byte each, `ends` of the formula clauses.
#[derive(Clone, Copy)]
struct Formula<'a> {
    literals: &'a [i16],
    ends: &'a [u16],
    sets: &'a [u8],
    kinds: &'a [u8],
    universals: u32,
    ghost small: { SmallFormula literals.now ends.now sets.now kinds.now universals } by { small_formula_prop literals.now ends.now sets.now kinds.now universals },
}

// The first family that is left.
fn first_left(left: &[u64], bits: u32) -> Option<u16>
    requires { (bits ≤ small_bits) × (2 ^ bits ≤ word_bits * length left.now) }
    ensures { decision_told (Ok result) ≡ decided (least_from 0 (2 ^ bits) (is_left left.now)) }
{
    for family in 0..1usize << bits {
        if family_bits::is_left(left, family) {
            return Some(family as u16);
        }
    }
    None
}

// So many words have a bit for each family of so many bits.
fn words_for(bits: u32) -> usize
    requires { bits ≤ small_bits }
    ensures { (2 ^ bits ≤ word_bits * result) × (result ≤ 1024) }
{
    1usize << bits.saturating_sub(6)
}

// Every family is left at first, and clauses take families away.
fn decide_formula(formula: &Formula) -> Result<Option<u16>, Refusal>
    ensures { decision_told result
        ≡ Deciding.decide (formula_in formula.now.kinds.now formula.now.sets.now (cut 0 formula.now.ends.now formula.now.literals.now)) }
{
    let mut offsets = [0u16; VARIABLE_LIMIT];
    let bits = function_tables::lay_out(&mut offsets, formula.kinds, formula.sets);
    if bits > SMALL_BITS {
        return Err(Refusal::TooLarge);
    }
    let layout = Layout {
        kinds: formula.kinds,
        sets: formula.sets,
        offsets: &offsets,
        universals: formula.universals,
    };
    let mut words = [u64::MAX; FAMILY_WORDS];
    let left = &mut words[..words_for(bits)];
    clause_masks::keep_clauses(left, formula.literals, formula.ends, layout);
    Ok(first_left(left, bits))
}

// Sets over the lowest 4 places, a byte each.
fn small_sets<'a>(out: &'a mut [u8], sets: &[u64]) -> &'a [u8]
    requires { (length out.old ≡ length (as_sets words_each sets.now)) × AllSmall (as_sets words_each sets.now) }
    ensures { result.now ≡ as_sets words_each sets.now }
{
    function_tables::small_sets(out, sets);
    out
}

// The formula part of well-formed tables.
fn decide_formed(tables: &Lent) -> Result<Option<u16>, Refusal>
    requires { (long (tables_lent tables.now) ≡ true) × (well_formed (tables_lent tables.now) tables.now.state ≡ true) }
    ensures { decision_told result ≡ Deciding.decide (model_in (tables_lent tables.now) tables.now.state) }
{
    let universals = tables.state.universals;
    if universals > SMALL_UNIVERSALS {
        return Err(Refusal::TooLarge);
    }
    let variables = tables.state.bound.0 as usize;
    let clauses = tables.state.formula.0 as usize;
    let mut bytes = [0u8; VARIABLE_LIMIT];
    let sets = small_sets(&mut bytes[..variables], &tables.sets[..4 * variables]);
    let formula = Formula {
        literals: tables.literals,
        ends: &tables.ends[..clauses],
        sets,
        kinds: &tables.kinds[..variables],
        universals: u32::from(universals),
    };
    decide_formula(&formula)
}

// The first family that makes the formula in the tables true, if one does, or the refusal: 1, 2 or 31.
pub fn decide(tables: &Lent) -> Result<Option<u16>, Refusal>
    ensures { decision_told result ≡ decision_answer (tables_lent tables.now) tables.now.state }
{
    tables.usable()?;
    decide_formed(tables)
}
