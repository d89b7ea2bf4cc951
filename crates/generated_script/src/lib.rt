//! The script of a selftest, which a seed and a number of events generate, and its font.
#![tactic(auto)]

mod draws;
mod font;
mod lines;
mod script;

pub use font::grid_font;
pub use script::generated;
