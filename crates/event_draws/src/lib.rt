//! The draws of one event at an instant: where it stands, its lines and runs, what these leave on the frame, and the masks cut of that.
#![tactic(auto)]

mod clip;
mod draws;
mod event;
mod laws;
mod lengths;
mod marks;
mod rows;
mod runs;
mod stage;

pub use event::{add_laid_event, add_viewed_event};
pub use laws::runs_are_maximal;
pub use rows::add_event_draws;
pub use stage::Stage;
