//! One track for many players: seats that feed it, flush it and draw from it, each of one thread, and none waits.
#![tactic(auto)]

mod alpha;
mod answers;
mod drawing;
mod feeding;
pub mod laws;
mod opening;
mod refusals;
mod seat;

pub use answers::{Drawn, ListChange};
pub use refusals::{ShareRefusal, SplitRefusal};
pub use seat::Seat;
