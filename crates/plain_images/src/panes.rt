//! Rectangles of pixels, which may be empty.

ghost use Rattle.std.specs.Prelude.{◌≡◌};
ghost use Rattle.ass_num.specs.Limits.{IsFrameSize};
ghost use Rattle.plain_images.specs.Panes as rule;

use ass_num::Size;
use blend::Placed;

/// The pixels in the columns from `x1` and the rows from `y1` on, without those of the bounds `x2` and `y2`.
#[derive(Clone, Copy)]
pub struct Pane {
    pub x1: i64,
    pub y1: i64,
    pub x2: i64,
    pub y2: i64,
}

/// All pixels of a frame.
pub fn frame_pane(size: &Size) -> Pane
    ensures { result ≡ rule.frame_pane size.now }
{
    Pane {
        x1: 0,
        y1: 0,
        x2: i64::from(size.w),
        y2: i64::from(size.h),
    }
}

/// The box of a placed mask.
pub fn box_pane(placed: Placed<'_>) -> Pane
    ensures { result ≡ rule.box_pane placed.entry.mask.now placed.entry.x placed.entry.y }
{
    let x1 = i64::from(placed.mask.x()) + i64::from(placed.x);
    let y1 = i64::from(placed.mask.y()) + i64::from(placed.y);
    Pane {
        x1,
        y1,
        x2: x1 + i64::from(placed.mask.w()),
        y2: y1 + i64::from(placed.mask.h()),
    }
}

impl Pane {
    /// Whether no pixel lies in it.
    pub fn is_empty(self) -> bool
        ensures { result ≡ rule.is_empty_pane self }
    {
        self.x2 <= self.x1 || self.y2 <= self.y1
    }

    /// The pixels that lie in both.
    pub fn both(self, other: Pane) -> Pane
        ensures { result ≡ rule.both_panes self other }
    {
        Pane {
            x1: self.x1.max(other.x1),
            y1: self.y1.max(other.y1),
            x2: self.x2.min(other.x2),
            y2: self.y2.min(other.y2),
        }
    }

    /// What lies left of a column.
    pub fn before_column(self, edge: i32) -> Pane
        ensures { result ≡ rule.pane_before self edge }
    {
        Pane {
            x2: self.x2.min(i64::from(edge)),
            ..self
        }
    }

    /// What lies in a column and right of it.
    pub fn from_column(self, edge: i32) -> Pane
        ensures { result ≡ rule.pane_from self edge }
    {
        Pane {
            x1: self.x1.max(i64::from(edge)),
            ..self
        }
    }
}
