//! What holds of the draws of events, told by draws and events alone, and of the layouts and the numbers below them; laws.
#![tactic(auto)]

mod laws;
mod number_laws;

pub use laws::{events_are_drawn_in_layers, faded_events_are_transparent, whole_pixels_move_draws};
pub use number_laws::{layouts_are_stacked, numbers_are_rounded};
