//! The formulas of the points of outlines, as definitions and as calls.
#![tactic(auto)]

mod contours;
mod cubic_contours;
mod curves;
mod drawings;
mod glyph_point;
mod glyphs;
mod placing;
mod products;
mod stroke;

pub use contours::{bold_shift, contour_point, curve_end, quadratic_point, steps_of};
pub use cubic_contours::{cubic_steps, point_of_cubic, stroke_point};
pub use curves::{cubic_point, spline_point};
pub use drawings::{add_segment, drawing_extent, end_point, scaled_point};
pub use glyph_point::GlyphPoint;
pub use glyphs::{pixel_is_set, quad};
pub use placing::{Turn, turned};
pub use stroke::Stroke;
