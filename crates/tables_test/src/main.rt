// Tests of the tables: each condition of well-formedness broken alone where that is possible, the borders of the counts, the questions, and what is added and
// cleared. All tables are longer than the stated sizes, and their last entry is marked. Each line is a case and the number that document 01 gives it (0: well formed).
#![tactic(auto)]

mod build;
mod cases;
mod fill;
mod growth;
mod questioned;

use std::io;

fn main(rt: HostRuntime) -> io::Result<()> {
    cases::lengths(&rt)?;
    cases::counts(&rt)?;
    cases::sums(&rt)?;
    cases::clauses(&rt)?;
    cases::variables(&rt)?;
    cases::rest(&rt)?;
    cases::borders(&rt)?;
    questioned::clauses(&rt)?;
    questioned::variables(&rt)?;
    questioned::refused(&rt)?;
    growth::grown(&rt)?;
    growth::cleared(&rt)
}
