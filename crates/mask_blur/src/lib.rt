//! Softening masks, and blurring them.
#![tactic(auto)]

mod blur;
mod columns;
mod copies;
mod laws;
mod lines;
mod means;
mod rows;
mod softening;
mod strips;
mod tiles;
mod transposing;
mod weights;

pub use blur::box_blur;
pub use laws::{one_result, same_pictures};
pub use softening::soften;
