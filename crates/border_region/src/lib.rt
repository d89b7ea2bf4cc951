//! Regions widened by an ellipse, as borders of glyphs and drawings are.
#![tactic(auto)]

mod border;
mod ellipse;
mod frontier;
mod merge;
mod profile;
mod strip_rows;
mod strips;
mod wide_rows;
mod wide_sides;
mod wide_strips;

pub use border::widened;
