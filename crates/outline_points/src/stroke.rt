//! Lines and curves of contours.

use ass_num::Point;

/// A line to a point, or a cubic curve by two control points to a third one. In a glyph they are in 1/65,536 of the font's
/// unit, y upwards.
#[derive(Clone, Copy, Debug, PartialEq, Eq)]
pub enum Stroke {
    Line(Point),
    Curve(Point, Point, Point),
}
