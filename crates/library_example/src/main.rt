//! Two programs over the library: a player for one thread, and a renderer that two threads share.
#![tactic(auto)]

mod one_thread;
mod showing;
mod two_threads;

use std::io;

fn main(rt: HostRuntime) -> io::Result<()> {
    one_thread::run(&rt, rt.alloc())?;
    two_threads::run(&rt, rt.alloc())
}
