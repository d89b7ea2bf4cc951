//! The least box that has the boxes of several masks.

ghost use Rattle.std.specs.Prelude.{◌≡◌, ℤ, pos, ◌<◌, ◌^◌, ◌+ℤ◌, ◌≤ℤ◌, List, [], ◌∷◌, ◌++◌};
ghost use Rattle.mask_cover.specs.Extents.{IsStretchNear, IsExtent, JoinsStretch};
ghost use Rattle.ass_num.specs.Masks.{MaskValue};
ghost use Rattle.mask_cover.specs.Sums.{IsPlaceableMask, IsBoxOf};

use ass_num::Mask;
use std::marker::Model;

/// The least box of pixels that has the boxes of the masks so far. Contracts see it as the box.
#[derive(Debug, Drop)]
pub struct Extent {
    x: i32,
    y: i32,
    w: u32,
    h: u32,
}

impl Model for Extent {
    ghost use Rattle.ass_num.specs.Coverage.{PixelBox};
    ghost use Rattle.mask_cover.specs.Extents.{IsExtent};

    ghost Value = { PixelBox };

    ghost view = { λ e. record { x = e.x; y = e.y; w = e.w; h = e.h } };

    ghost invariant = { λ e. IsExtent (record { x = e.x; y = e.y; w = e.w; h = e.h }) };
}

impl Extent {
    /// The box without pixels, which is that of no masks.
    pub fn empty() -> Extent
        ensures none { result ≡ record { x = pos 0; y = pos 0; w = 0; h = 0 } }
        ensures parts { IsBoxOf [] result }
    {
        Extent {
            x: 0,
            y: 0,
            w: 0,
            h: 0,
        }
    }

    /// The least box that has this one, and the box of the mask that is moved right by `dx` and down by `dy`:
    /// from the box of some masks that of these and one more.
    pub fn with(self, mask: &Mask, dx: i32, dy: i32) -> Extent
        requires { IsPlaceableMask (mask.now, dx, dy) }
        ensures { (parts : List (MaskValue × ℤ × ℤ)) → IsBoxOf parts self → IsBoxOf (parts ++ (mask.now, dx, dy) ∷ []) result }
    {
        if mask.bytes().is_empty() {
            return self;
        }
        let (x, w) = joined(self.x, self.w, mask.x() + dx, mask.w());
        let (y, h) = joined(self.y, self.h, mask.y() + dy, mask.h());
        Extent { x, y, w, h }
    }

    /// The column of the left side.
    pub fn x(&self) -> i32
        ensures x { result ≡ self.now.x }
        ensures extent { IsExtent self.now }
    {
        self.x
    }

    /// The row of the top side.
    pub fn y(&self) -> i32
        ensures { result ≡ self.now.y }
    {
        self.y
    }

    /// The width in pixels.
    pub fn w(&self) -> u32
        ensures { result ≡ self.now.w }
    {
        self.w
    }

    /// The height in pixels.
    pub fn h(&self) -> u32
        ensures { result ≡ self.now.h }
    {
        self.h
    }
}

/// The least stretch, as its first place and its length, that has two; an empty first one is passed over.
fn joined(a: i32, a_len: u32, b: i32, b_len: u32) -> (i32, u32)
    requires first { IsStretchNear a a_len }
    requires second { IsStretchNear b b_len }
    requires some { 0 < b_len }
    ensures { JoinsStretch a a_len b b_len result.0 result.1 }
{
    if a_len == 0 {
        return (b, b_len);
    }
    let from = a.min(b);
    let to = end_of(a, a_len).max(end_of(b, b_len));
    (from, len_to(from, to))
}

/// The place behind a stretch.
fn end_of(from: i32, len: u32) -> i64
    ensures { result ≡ from +ℤ pos len }
{
    i64::from(from) + i64::from(len)
}

/// The length of the stretch from a place up to but not with another.
fn len_to(from: i32, to: i64) -> u32
    requires order { from ≤ℤ to }
    requires short { to ≤ℤ (from +ℤ pos (2 ^ 31)) }
    ensures { from +ℤ pos result ≡ to }
{
    (to - i64::from(from)) as u32
}
