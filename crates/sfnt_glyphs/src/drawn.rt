//! What is drawn of glyphs.

use ass_num::Items;
use outline_points::GlyphPoint;

/// How many points and parts of a glyph are drawn so far.
#[derive(Clone, Copy)]
pub struct Room {
    pub points: u32,
    pub parts: u32,
}

/// What is drawn of a glyph: how many points each contour has, all points, how far they are to be moved right, and
/// how many points and parts there are so far.
#[derive(Drop)]
pub struct Drawn {
    pub sizes: Items<u32>,
    pub points: Items<GlyphPoint>,
    pub shift: i32,
    pub room: Room,
}
