//! Laws of pictures: that events draw one list of draws at an instant, and make one picture; what fonts of bitmaps draw; and what
//! scripts show that are written again.
#![tactic(auto)]

mod laws;
mod written_laws;

pub use laws::{alpha_pictures_are_near, bitmaps_are_drawn_as_named, one_picture};
pub use written_laws::{rewritten_scripts_show_the_same, written_events_show_the_same};
