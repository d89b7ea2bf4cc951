//! Where a text lies in its block.

use ass_num::{Fix, Items};

/// A line: its items, and where it lies. Lengths are in 1/64 pixel; `top` and `left` are measured from the upper left corner of the block.
#[derive(Clone, Copy, Debug, PartialEq, Eq)]
pub struct Line {
    /// Its first item.
    pub first: usize,
    /// The place behind its last item: that of the break that ends it, or the end of all items.
    pub last: usize,
    pub top: Fix,
    /// Where its characters stand, from the top of the block.
    pub baseline: Fix,
    pub left: Fix,
    pub width: Fix,
    pub height: Fix,
}

/// An item in its line.
#[derive(Clone, Copy, Debug, PartialEq, Eq)]
pub struct Placed {
    pub item: usize,
    pub line: usize,
    /// Where the pen stands before it, from the left of the block.
    pub x: Fix,
    pub advance: Fix,
}

/// A text laid out: its lines from the top, the items of all lines in order, and the width and height of the block that they make.
#[derive(Debug, Drop)]
pub struct Laid {
    pub lines: Items<Line>,
    pub placed: Items<Placed>,
    pub width: Fix,
    pub height: Fix,
}
