//! Masks of coverage.

ghost use Rattle.std.specs.Prelude.{◌≡◌, ℕ, List, [], pos, true, length};
ghost use Rattle.ass_num.specs.Masks.{MaskValue, is_mask, value_at};

use std::alloc::Global;
use std::marker::Model;

/// Coverage of the pixels of a box, from 0 to 255, row by row from the top left; outside the box it is 0.
/// A mask without pixels has its corner and its sides 0.
#[derive(Debug, Drop)]
pub struct Mask {
    x: i32,
    y: i32,
    w: u32,
    h: u32,
    bytes: Vec<u8>,
}

impl Model for Mask {
    ghost use Rattle.std.specs.Prelude.{◌≡◌, true};
    ghost use Rattle.ass_num.specs.Masks.{MaskValue, is_mask};

    ghost Value = { MaskValue };

    ghost view = { λ m. record { x = m.x; y = m.y; w = m.w; h = m.h; bytes = m.bytes.items } };

    ghost invariant = { λ m. is_mask (record { x = m.x; y = m.y; w = m.w; h = m.h; bytes = m.bytes.items }) ≡ true };
}

impl Mask {
    /// The mask of these bytes in the box with this corner and these sides; `is_mask` tells whether they make one.
    pub fn new(x: i32, y: i32, w: u32, h: u32, bytes: Vec<u8>) -> Mask
        requires { is_mask (record { x = x; y = y; w = w; h = h; bytes = bytes.items }) ≡ true }
        ensures { result ≡ record { x = x; y = y; w = w; h = h; bytes = bytes.items } }
    {
        Mask { x, y, w, h, bytes }
    }

    /// The mask without pixels; it takes no memory.
    pub fn empty(alloc: Global) -> Mask
        ensures { result ≡ record { x = pos 0; y = pos 0; w = 0; h = 0; bytes = [] } }
    {
        Mask {
            x: 0,
            y: 0,
            w: 0,
            h: 0,
            bytes: Vec::new(alloc),
        }
    }

    /// The column of the left side.
    pub fn x(&self) -> i32
        ensures { result ≡ self.now.x }
    {
        self.x
    }

    /// The row of the top side.
    pub fn y(&self) -> i32
        ensures { result ≡ self.now.y }
    {
        self.y
    }

    /// The width in pixels.
    pub fn w(&self) -> u32
        ensures { result ≡ self.now.w }
    {
        self.w
    }

    /// The height in pixels.
    pub fn h(&self) -> u32
        ensures { result ≡ self.now.h }
    {
        self.h
    }

    /// The coverage of the pixels, row by row.
    pub fn bytes(&self) -> &[u8]
        ensures bytes { result.now ≡ self.now.bytes }
        ensures canonical { is_mask self.now ≡ true }
    {
        self.bytes.as_slice()
    }
}

/// Whether these bytes make a mask in the box with this corner and these sides.
pub fn is_mask(x: i32, y: i32, w: u32, h: u32, bytes: &[u8]) -> bool
    ensures { result ≡ is_mask (record { x = x; y = y; w = w; h = h; bytes = bytes.now }) }
{
    let count = bytes.len() as u64;
    count == u64::from(w) * u64::from(h) && (count != 0 || (x == 0 && y == 0 && w == 0 && h == 0))
}
