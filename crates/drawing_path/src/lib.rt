//! The path of a drawing: the drawing commands of override tags (Aegisub tag reference, "Drawing tags").
#![tactic(auto)]

mod command;
mod laws;
mod points;
mod read;
mod sketch;

pub use command::Command;
pub use laws::one_path;
pub use read::read_path;
