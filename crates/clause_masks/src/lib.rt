// What the clauses of a formula ask of families, setting by setting, and the families that they leave (document 02, Note 8).
#![tactic(auto)]

ghost use Rattle.std.specs.Prelude.{Some, ◌<◌, length};
ghost use Rattle.dqbf.specs.Set as Set;
ghost use Rattle.deciding.specs.Deciding.{literal_at, always_true, all_true};
ghost use Rattle.tables.specs.Tables.{cut};
ghost use Rattle.tables.specs.FormulaEntries.{Rises};
ghost use Rattle.family_bits.specs.Left.{Narrowed};
ghost use Rattle.clause_masks.specs.Masking.{signed, Asks, MasksOf, Declared, Over, OverAll};
ghost use Rattle.clause_masks.specs.Laid.{model_of};

use crate::layout::Layout;
use tables::kind;

pub mod layout;

// What a clause asks of a family at a setting: a bit of `ones` in its number or one of `zeros` not in it. A clause that asks nothing has no masks.
#[derive(Clone, Copy, PartialEq, Eq)]
pub struct Masks {
    pub ones: usize,
    pub zeros: usize,
}

// One more literal, with a value that no family changes.
fn add_value(masks: Masks, value: bool, negated: bool) -> Option<Masks>
    ensures { Asks result (Some masks) (λ f. signed negated value) }
{
    if value == negated { Some(masks) } else { None }
}

// One more literal, with the value of a bit of the family.
fn add_bit(masks: Masks, place: u32, negated: bool) -> Masks
    requires { place < 64 }
    ensures { Asks (Some result) (Some masks) (λ f. signed negated (Set.bit f place)) }
{
    let mask = 1usize << place;
    if negated {
        return Masks {
            zeros: masks.zeros | mask,
            ..masks
        };
    }
    Masks {
        ones: masks.ones | mask,
        ..masks
    }
}

// One more literal of a clause at a setting.
fn add_literal(layout: Layout, masks: Masks, l: i16, setting: u32) -> Option<Masks>
    requires { Declared (model_of layout) l }
    ensures { Asks result (Some masks) (λ f. literal_at (model_of layout.entry) f setting l) }
{
    let negated = l.is_negative();
    let place = usize::from(l.unsigned_abs()) - 1;
    let set = u32::from(layout.sets[place]);
    if layout.kinds[place] == kind::UNIVERSAL {
        return add_value(masks, set & setting == set, negated);
    }
    let row = function_tables::row(layout.universals, set, setting);
    let bit = add_bit(masks, u32::from(layout.offsets[place]) + row, negated);
    Some(bit)
}

// What a clause asks of a family at a setting.
fn masks_of(layout: Layout, clause: &[i16], setting: u32) -> Option<Masks>
    requires { Over (model_of layout) clause.now }
    ensures { MasksOf (model_of layout.entry) setting clause.now result }
{
    let mut masks = Masks { ones: 0, zeros: 0 };
    for l in clause {
        masks = add_literal(layout, masks, *l, setting)?;
    }
    Some(masks)
}

// Keeps the families that make a clause true at every setting.
fn keep_clause(left: &mut [u64], layout: Layout, clause: &[i16])
    requires { Over (model_of layout) clause.now }
    ensures { Narrowed left.old left.new (λ f. always_true (model_of layout.entry) f clause.now) }
{
    for setting in 0..1u32 << layout.universals {
        if let Some(masks) = masks_of(layout, clause, setting) {
            family_bits::keep(left, masks.ones, masks.zeros);
        }
    }
}

// Keeps the families that make every clause true.
pub fn keep_clauses(left: &mut [u64], literals: &[i16], ends: &[u16], layout: Layout)
    requires { Rises 0 ends.now (length literals.now)
        × OverAll (model_of layout) (cut 0 ends.now literals.now) }
    ensures { Narrowed left.old left.new
        (λ f. all_true (model_of layout.entry) f (cut 0 ends.now literals.now)) }
{
    let mut start = 0;
    for last in ends {
        let end = usize::from(*last);
        keep_clause(left, layout, &literals[start..end]);
        start = end;
    }
}
