//! Points, paths, outlines and the matrix of a glyph.

use crate::flat_lists::FlatLists;
use crate::items::Items;

/// A number in thousandths, as scripts and override tags write numbers.
pub type Milli = i64;

/// A length in 1/64 pixel.
pub type Fix = i64;

/// A point; y grows downwards. Its unit is 1/64 pixel in outlines, and thousandths of a script unit in paths.
#[derive(Clone, Copy, Debug, PartialEq, Eq, Hash)]
pub struct Point {
    pub x: i64,
    pub y: i64,
}

/// A segment of a drawing (Aegisub tag reference, "Drawing tags").
#[derive(Clone, Debug, PartialEq, Eq, Hash, Drop)]
pub enum Seg {
    /// Begins a figure.
    Move(Point),
    /// A straight line to the point.
    Line(Point),
    /// A cubic curve with two control points, to the third point.
    Cubic(Point, Point, Point),
    /// A uniform cubic spline with these control points, and whether it was closed.
    Spline(Items<Point>, bool),
}

/// The segments of a drawing, in order.
#[derive(Clone, Debug, PartialEq, Eq, Hash, Drop)]
pub struct Path {
    pub segs: Items<Seg>,
}

/// Closed rings of points in 1/64 pixel; the last point of a ring is joined to its first.
#[derive(Debug, Drop)]
pub struct Outline {
    pub rings: FlatLists<Point>,
}

/// How the points of a glyph or a drawing become points of an outline: two scales, a slant, and a turn.
#[derive(Clone, Copy, Debug, PartialEq, Eq, Hash)]
pub struct Matrix {
    /// Horizontal scale: 1/64 pixel for each 65,536 of a bitmap pixel.
    pub ux: i64,
    /// Vertical scale, likewise.
    pub uy: i64,
    pub italic: bool,
    /// Counterclockwise turn in thousandths of a degree.
    pub turn: Milli,
}
