//! The calls of a renderer as they run: in turn on one thread, and by eight threads that feed and draw at once beside one that tries. What
//! they come to is printed, and is the same whatever the threads' order.
#![tactic(auto)]

mod alike;
mod beside;
mod calls;
mod compared;
mod crew;
mod gates;
mod inputs;
mod lending;
mod many;
mod one;
mod rows;

use std::io;

fn main(rt: HostRuntime) -> io::Result<()> {
    let alloc = rt.alloc();
    one::run_in_turn(&rt, alloc);
    alike::run_alike(&rt, alloc);
    many::run_with_masks_kept(&rt, alloc);
    many::run_with_no_mask_kept(&rt, alloc);
    Ok(())
}
