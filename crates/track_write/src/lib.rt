//! Scripts written from their header, their styles and events; and events at other instants.
#![tactic(auto)]

mod faults;
mod header;
mod laws;
mod numbers;
mod pieces;
mod refusal;
mod rows;
mod shifts;
mod texts;

pub use laws::{near_events_are_moved, written_is_read_back};
pub use refusal::WriteRefusal;
pub use shifts::shifted;
pub use texts::script_text;
