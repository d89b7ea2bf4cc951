//! The points of glyphs that are drawn by curves.

/// A point of a glyph's contour, in a font's units, y upwards: on the contour, or one that a curve bends towards.
#[derive(Clone, Copy, Debug, PartialEq, Eq)]
pub struct GlyphPoint {
    pub x: i32,
    pub y: i32,
    pub is_on: bool,
}
