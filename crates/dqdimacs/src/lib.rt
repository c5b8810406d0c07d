// The load of a formula: DQDIMACS text into the four lent tables (document 01, "Formula text").
#![tactic(auto)]

ghost use Rattle.std.specs.Prelude.{◌≡◌};
ghost use Rattle.tables.specs.Lent.{tables_held, SameLoans};
ghost use Rattle.dqdimacs.specs.Loading.{AfterLoad, load_told, load_of};

use dqbf::limits::TEXT_LIMIT;
use dqbf::refusal::Refusal;
use tables::{LentMut, State, zero};
use texts::reading;
pub use texts::reading::LoadRefusal;

// The text of a formula into the tables. A refused text leaves a zero state.
pub fn load(text: &[u8], tables: &mut LentMut) -> Result<(), LoadRefusal>
    ensures loans { SameLoans tables.old tables.new }
    ensures after { ◌≡◌ {A = AfterLoad}
        (record { tables = tables_held tables.new; state = tables.new.state; answer = load_told result })
        (load_of (tables_held tables.old) text.now) }
{
    if !tables.view().is_long() {
        tables.state = State::default();
        return Err(LoadRefusal {
            line: 0,
            refusal: Refusal::TableTooShort,
        });
    }
    zero::clear(tables);
    if text.len() > TEXT_LIMIT {
        return Err(LoadRefusal {
            line: 0,
            refusal: Refusal::OverLimit,
        });
    }
    if let Err(refusal) = reading::read_lines(text, tables) {
        zero::clear(tables);
        return Err(refusal);
    }
    Ok(())
}
