//! The rounds of a play: its shifts, its times, and the whole. Images are written in the order of their instants. docs/PLAYS.md has the
//! rules.
#![tactic(auto)]

mod ends;
mod gather;
mod permits;
mod round;
mod rounds;
mod shift;
mod times;
mod whole_play;

pub use ends::PlayEnd;
pub use permits::Permits;
pub use round::play_round;
pub use whole_play::play;
