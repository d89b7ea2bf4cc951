//! The glyphs of TrueType fonts: how wide each one is, whether it is blank, and its contours.
#![tactic(auto)]

mod drawing;
mod drawn;
mod laws;
mod metrics;
mod parts;
mod points;
mod simple;
mod stretch;

pub use drawing::contours_of;
pub use laws::glyphs_are_total;
pub use metrics::advance_of;
pub use stretch::is_blank;
