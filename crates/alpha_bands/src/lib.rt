//! Painting pictures with alpha by several threads at once.
#![tactic(auto)]

mod banding;

pub use banding::paint_alpha_bands;
