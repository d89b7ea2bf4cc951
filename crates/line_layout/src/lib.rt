//! Layout of lines: where a paragraph is broken.
#![tactic(auto)]

mod breaks;
mod filling;
mod laws;
mod pens;

pub use breaks::choose_breaks;
pub use laws::{a_best_set_exists, one_best_set};
