// The refusals (document 01, "Numbers of refusal"; document 02, Notes 1, 4 and 8), each with its number and what it names (specs/Refusal.antt).
ghost use Rattle.std.specs.Prelude.{◌≡◌};
ghost use Rattle.dqbf.specs.Refusal.{refusal_told, values_of};

#[derive(Clone, Copy, PartialEq, Eq)]
pub enum Refusal {
    // 1: a table is lent too short
    TableTooShort,
    // 2: tables not well formed
    NotWellFormed,
    // 10: a line has none of the forms, or stands out of order; header missing
    NoForm,
    // 11: over a limit
    OverLimit,
    // 12: variable above V, declared twice, used undeclared, or a set member that is no earlier universal
    Variable,
    // 13: complementary literals in a clause
    Complementary,
    // 14: number of clauses is not C
    ClauseCount,
    // 20: no step record
    Malformed,
    // 21: clause number 0 or above the count
    UnknownClause,
    // 22: a literal that does not stand in the clause; a question about a variable not in use
    Absent,
    // 23: a resolvent with complementary literals of this variable
    Clash(u16),
    // 24: more than 32 literals
    TooWide,
    // 25: no room
    NoRoom,
    // 26: the reduced literal is not universal
    NotUniversal,
    // 27: another literal reads the reduced universal
    ReadByAnother,
    // 28: masks that do not cover the clause
    Masks,
    // 29: comparable sets of a fork's parts
    Comparable,
    // 30: output lent shorter than the text
    OutputTooShort,
    // 31: formula too large to be decided
    TooLarge,
}

impl Refusal {
    // The paper's number.
    pub fn number(self) -> u16
        ensures { result ≡ (refusal_told self).number }
    {
        match self {
            Refusal::TableTooShort => 1,
            Refusal::NotWellFormed => 2,
            Refusal::NoForm => 10,
            Refusal::OverLimit => 11,
            Refusal::Variable => 12,
            Refusal::Complementary => 13,
            Refusal::ClauseCount => 14,
            Refusal::Malformed => 20,
            Refusal::UnknownClause => 21,
            Refusal::Absent => 22,
            Refusal::Clash(_) => 23,
            Refusal::TooWide => 24,
            Refusal::NoRoom => 25,
            Refusal::NotUniversal => 26,
            Refusal::ReadByAnother => 27,
            Refusal::Masks => 28,
            Refusal::Comparable => 29,
            Refusal::OutputTooShort => 30,
            Refusal::TooLarge => 31,
        }
    }

    // The variable that it names.
    pub fn variable(self) -> Option<u16>
        ensures { values_of result ≡ (refusal_told self).values }
    {
        match self {
            Refusal::Clash(variable) => Some(variable),
            _ => None,
        }
    }
}
