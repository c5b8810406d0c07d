// Lines of what is answered.
use api::LoadRefusal;
use std::io;

// The line and the number of a refused load.
pub fn refusal(rt: &impl Print, refused: LoadRefusal) -> io::Result<()> {
    rt.write_all(b"formula")?;
    printed::number(rt, refused.line)?;
    printed::number(rt, u32::from(refused.refusal.number()))?;
    println!(rt)
}

// A number by itself.
pub fn number(rt: &impl Print, value: u64) -> io::Result<()> {
    println!(rt; "{value}")
}

pub fn marks(rt: &impl Print, marked: bool) -> io::Result<()> {
    rt.println(if marked { "marked" } else { "changed" })
}
