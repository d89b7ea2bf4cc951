//! The part of one worker in a round of a play: a feeder offers the lines of its batch, a painter makes the image of its instant, and a
//! warmer makes masks ahead, each with a pass of its own. docs/PLAYS.md has the rules.
#![tactic(auto)]

mod feeder;
mod images;
mod painter;
mod part;
mod stage;
mod warmer;
mod worker;

pub use stage::{PlayStage, good_flags};
pub use worker::{Outcome, Role, Worker, dismiss, hire};
