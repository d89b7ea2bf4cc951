//! Sums of masks.

ghost use Rattle.std.specs.Prelude.{◌≡◌, ℕ, ℤ, pos, ◌+◌, ◌*◌, ◌≤◌, ◌+ℤ◌, ◌≤ℤ◌, true, List, [], ◌∷◌, ◌++◌, length, All, IfOk};
ghost use Rattle.ass_num.specs.Limits.{IsMaskWithin};
ghost use Rattle.ass_num.specs.Masks.{MaskValue, is_mask};
ghost use Rattle.ass_num.specs.Coverage.{box_of, InBox, IsMovedPixel, IsSum};
ghost use Rattle.mask_cover.specs.Rows.{AddsRow, AddsCells};
ghost use Rattle.mask_cover.specs.Sums.{IsPlaceableMask, IsMovedWithin, IsBoxOf, HasSum};

use crate::extent::Extent;
use ass_num::{Mask, Mem};
use std::alloc::Global;
use std::marker::Model;

/// A sum of masks, at most 255 at each pixel, in a box that is fixed before the first is added.
/// Contracts see it as the mask of what was added.
#[derive(Debug, Drop)]
pub struct MaskSum {
    x: i32,
    y: i32,
    w: u32,
    h: u32,
    bytes: Vec<u8>,
}

impl Model for MaskSum {
    ghost use Rattle.std.specs.Prelude.{◌≡◌, true};
    ghost use Rattle.ass_num.specs.Masks.{MaskValue, is_mask};

    ghost Value = { MaskValue };

    ghost view = { λ m. record { x = m.x; y = m.y; w = m.w; h = m.h; bytes = m.bytes.items } };

    ghost invariant = { λ m. is_mask (record { x = m.x; y = m.y; w = m.w; h = m.h; bytes = m.bytes.items }) ≡ true };
}

impl MaskSum {
    /// The sum of no masks in a box.
    pub fn new(alloc: Global, extent: &Extent) -> Mem<MaskSum>
        ensures place { IfOk result (λ sum. box_of sum ≡ extent.now) }
        ensures empty { IfOk result (λ sum. HasSum [] sum) }
    {
        let (w, h) = (extent.w(), extent.h());
        Ok(MaskSum {
            x: extent.x(),
            y: extent.y(),
            w,
            h,
            bytes: vec![in alloc; 0; w as usize * h as usize]?,
        })
    }

    /// Adds a mask that is moved right by `dx` and down by `dy`; its moved box must lie in the sum's. Takes no memory.
    pub fn add(&mut self, mask: &Mask, dx: i32, dy: i32)
        requires { (i j : ℤ) → IsMovedPixel (mask.now, dx, dy) i j → InBox (box_of self.old) i j }
        ensures place { box_of self.new ≡ box_of self.old }
        ensures sum { (parts : List (MaskValue × ℤ × ℤ)) → HasSum parts self.old → HasSum (parts ++ (mask.now, dx, dy) ∷ []) self.new }
    {
        let (left, top, width) = (self.x, self.y, self.w as usize);
        let sums = self.bytes.as_mut_slice();
        if mask.bytes().is_empty() {
            return;
        }
        let column = place_in(mask.x(), dx, left);
        let row = place_in(mask.y(), dy, top);
        add_rows(sums, width, column, row, mask);
    }

    /// The mask of the sum. Where the box is that of the masks which were added, it is the sum of them.
    pub fn into_mask(self) -> Mask
        ensures same { result ≡ self }
        ensures canonical { is_mask result ≡ true }
        ensures sum { (parts : List (MaskValue × ℤ × ℤ)) → IsBoxOf parts (box_of self) → HasSum parts self → IsSum parts result }
        ensures within { (parts : List (MaskValue × ℤ × ℤ)) → IsBoxOf parts (box_of self) → (corner side shift : ℕ)
            → All (IsMovedWithin corner side shift) parts → IsMaskWithin (corner + shift) (2 * (corner + shift) + side) result }
    {
        Mask::new(self.x, self.y, self.w, self.h, self.bytes)
    }
}

/// How far a corner that is moved lies behind the first column or row.
fn place_in(corner: i32, by: i32, first: i32) -> usize
    requires { first ≤ℤ (corner +ℤ by) }
    ensures { (corner +ℤ by) ≡ first +ℤ pos result }
{
    (i64::from(corner) + i64::from(by) - i64::from(first)) as usize
}

/// Adds the bytes of a mask to rows of `width` bytes, from a column and a row on.
fn add_rows(sums: &mut [u8], width: usize, column: usize, row: usize, mask: &Mask)
    requires columns { column + mask.now.w ≤ width }
    requires rows { (row + mask.now.h) * width ≤ length sums.old }
    ensures { AddsCells mask.now width column row mask.now.h sums.old sums.new }
{
    let bytes = mask.bytes();
    let w = mask.w() as usize;
    for j in 0..mask.h() as usize {
        add_row(sums, (row + j) * width + column, &bytes[j * w..j * w + w]);
    }
}

/// Adds bytes to those from a place on, up to 255.
fn add_row(sums: &mut [u8], from: usize, bytes: &[u8])
    requires { from + length bytes.now ≤ length sums.old }
    ensures { AddsRow from bytes.now sums.old sums.new }
{
    for (i, byte) in bytes.iter().enumerate() {
        sums[from + i] = sums[from + i].saturating_add(*byte);
    }
}

/// The sum of masks, each moved right by its first number and down by its second, at most 255 at each pixel.
/// The box is the least one that has the moved boxes; masks without pixels are passed over.
pub fn sum_of(alloc: Global, parts: &[(Mask, i32, i32)]) -> Mem<Mask>
    requires { All IsPlaceableMask parts.now }
    ensures sum { IfOk result (IsSum parts.now) }
    ensures canonical { IfOk result (λ m. is_mask m ≡ true) }
    ensures within { IfOk result (λ m. (corner side shift : ℕ) → All (IsMovedWithin corner side shift) parts.now
        → IsMaskWithin (corner + shift) (2 * (corner + shift) + side) m) }
{
    let mut sum = MaskSum::new(alloc, &extent_of(parts))?;
    for (mask, dx, dy) in parts {
        sum.add(mask, *dx, *dy);
    }
    Ok(sum.into_mask())
}

/// The least box that has the boxes of the moved masks.
fn extent_of(parts: &[(Mask, i32, i32)]) -> Extent
    requires { All IsPlaceableMask parts.now }
    ensures { IsBoxOf parts.now result }
{
    let mut extent = Extent::empty();
    for (mask, dx, dy) in parts {
        extent = extent.with(mask, *dx, *dy);
    }
    extent
}
