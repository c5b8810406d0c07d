// The clauses as they are shown.
use api::{ClauseNumber, Lent};
use std::io;

// Every clause behind a stroke, with the two unknown numbers around them: 0 and the one above the count. No state has more than 2,048 clauses.
pub fn clauses(rt: &impl Print, tables: &Lent) -> io::Result<()> {
    rt.write_all(b"\nshown")?;
    let count = tables.state.clauses.0;
    if count > 2048 {
        return Ok(());
    }
    for number in 0..count + 2 {
        rt.write_all(b" /")?;
        printed::literals(rt, api::show(tables, ClauseNumber(number)))?;
    }
    println!(rt)
}
