// The refusal of a load, and the counts of a state.
use api::{LoadRefusal, State};
use std::io;

// The line and the number of a refused load.
pub fn refusal(rt: &impl Print, refused: LoadRefusal) -> io::Result<()> {
    rt.write_all(b"\nformula")?;
    printed::number(rt, refused.line)?;
    printed::number(rt, u32::from(refused.refusal.number()))?;
    println!(rt)
}

// The eight counts of a state.
pub fn counts(rt: &impl Print, state: State) -> io::Result<()> {
    rt.write_all(b"\ncounts")?;
    let counts = [
        state.bound.0,
        state.variables.0,
        u32::from(state.universals),
        state.formula.0,
        state.clauses.0,
        u32::from(state.literals),
        state.steps.0,
        state.empty.0,
    ];
    for count in counts {
        printed::number(rt, count)?;
    }
    Ok(())
}
