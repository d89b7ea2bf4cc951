//! Outlines without edges that cancel.
#![tactic(auto)]

mod cancel;
mod edges;
mod rings;

pub use cancel::cancelled;
