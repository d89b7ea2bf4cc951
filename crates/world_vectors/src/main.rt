//! Makes the steps of worlds, and prints what comes of them: the replies to a table of steps; whether events that came in three
//! orders have one picture; and of steps at random, whether what was shown is the picture without caches, and whether the other
//! replies are the same without the steps that were idle. Before these it prints what the value of a key of each kind costs.
#![tactic(auto)]

mod chance;
mod inputs;
mod kinds;
mod lines;
mod moves;
mod orders;
mod plain;
mod table;
mod watch;

use std::test::Fail;

fn main(rt: HostRuntime) -> Result<(), Fail> {
    kinds::show(&rt)?;
    table::show(&rt)?;
    orders::show(&rt)?;
    chance::show(&rt)
}
