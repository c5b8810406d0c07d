// Numbers and literals on standard output, each behind a space: what the test programs print.
#![tactic(auto)]

use std::io;

pub fn number(rt: &impl Print, value: u32) -> io::Result<()> {
    print!(rt; " {value}")
}

pub fn literal(rt: &impl Print, value: i16) -> io::Result<()> {
    rt.write_all(b" ")?;
    if value < 0 {
        rt.write_all(b"-")?;
    }
    let variable = dqbf::literal::variable_of(value);
    print!(rt; "{variable}")
}

pub fn literals(rt: &impl Print, clause: &[i16]) -> io::Result<()> {
    for value in clause {
        literal(rt, *value)?;
    }
    Ok(())
}
