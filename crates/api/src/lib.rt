// The public calls of the library, the types of their arguments and answers, and the sizes of tables, texts, lists and lines. Everything else in the crates is internal: a
// function there may ask something of its caller (`requires`), a public call asks nothing.
// The calls of a C or C++ driver are those of the crate `driver`.
#![tactic(auto)]

pub use dqbf::limits::{CLAUSE_LIMIT, LITERAL_LIMIT, RECORDS_LIMIT, TEXT_LIMIT, VARIABLE_LIMIT};
pub use dqbf::refusal::Refusal;
pub use dqdimacs::{LoadRefusal, load};
pub use formula_text::{TIDY_LIMIT, write_formula};
pub use lines::line::LINE_SIZE;
pub use questions::{VariableEntry, clause_length, show, variable};
pub use sets::TABLE_WORDS;
pub use steps::run::run;
pub use steps::step::step;
pub use steps::{BadStep, Outcome};
pub use tables::{ClauseNumber, Lent, LentMut, State, StepNumber, VariableNumber};
pub use verdict::judge::judge;
