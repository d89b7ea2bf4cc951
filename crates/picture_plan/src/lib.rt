//! The draws of a picture: the events shown at an instant, each placed clear of those before it, by layer, then ReadOrder.
#![tactic(auto)]

mod alike;
mod event;
pub mod laws;
mod pictures;
mod shown;

pub use mask_keys::{Clip, Draw, Plan};
pub use pictures::{plan, plan_of_spans};
