//! When events are shown, and the walk that finds those that matter at an instant.
#![tactic(auto)]

mod near;
mod spans;
mod walks;

pub use near::{NearEvents, near_spans};
pub use spans::{EventSpan, sort_by_layer, sort_in_time};
pub use walks::Walk;
