//! Outlines of glyphs, drawings and boxes.
#![tactic(auto)]

mod bars;
mod boxes;
mod contours;
mod drawings;
mod glyphs;
mod runs;
mod strokes;
mod style;

pub use ass_num::Matrix;
pub use boxes::box_outline;
pub use cancelled_edges::cancelled;
pub use drawings::outline_of_path;
pub use glyphs::quads_of;
pub use outline_points::turned;
pub use runs::runs_of;
