//! What the movement, the fade and the transforms of an event come to at an instant. Times are in milliseconds from the event's
//! start, points in thousandths. Each call at an instant takes every `i64` as a time or a point, and none takes memory.
#![tactic(auto)]

mod fades;
mod movement;
mod ways;
mod weights;

pub use fades::{fad_at, fade_at, faded};
pub use movement::move_at;
pub use ways::{between, difference, moved};
pub use weights::{transform_weight, weight_at};
