//! What the program prints. Each printed number makes a function dear to prove, so all lines are printed here.

use crate::laps::Laps;
use crate::stop::Stop;

/// Prints what was measured, of what input, and how much came of it; and to standard error how long the turns took.
pub fn tell(
    rt: &HostRuntime,
    kernel: &str,
    input: &str,
    count: usize,
    unit: &str,
    laps: &Laps,
) -> Result<(), Stop> {
    println!(rt; "{kernel}, {input}: {count} {unit}")?;
    eprintln!(rt; "  {laps}")?;
    Ok(())
}

/// Prints bytes behind what they are.
pub fn show_bytes(rt: &HostRuntime, what: &str, bytes: &[u8]) -> Result<(), Stop> {
    println!(rt; "{what}: {bytes:?}")?;
    Ok(())
}
