//! The mask of a region.

ghost use Rattle.std.specs.Prelude.{◌≡◌, ℕ, pos, ◌+◌, ◌*◌, ◌/◌, ◌<◌, ◌≤◌, ◌^◌, neg_ℤ, ◌+ℤ◌, ◌-ℤ◌, ◌*ℤ◌, ◌<ℤ◌, ◌≤ℤ◌, true, length, IfOk, All, slice_index};
ghost use Rattle.ass_num.specs.Coverage.{IsCover};
ghost use Rattle.ass_num.specs.Limits.{IsMaskWithin, IsRegionWithin};
ghost use Rattle.ass_num.specs.Masks.{is_mask};
ghost use Rattle.ass_num.specs.Regions.{all_ascend, member};
ghost use Rattle.mask_cover.specs.Steps.{IsInside, HasCells, HasMoreCells};

use crate::axis::{axis_of, place_of};
use crate::columns::span_of;
use crate::steps::{add_rows, clear, push_row};
use ass_num::{FlatLists, Mask, Mem, Region, Run};
use std::alloc::Global;

/// The bytes of `h` rows of `w` pixels. The first pixel's first sample in a row is `left`, and `above` rows of samples stand above the first row.
fn cover_rows(
    alloc: Global,
    rows: &FlatLists<Run>,
    left: i64,
    above: usize,
    w: usize,
    h: usize,
) -> Mem<Vec<u8>>
    requires ascends { all_ascend rows.now ≡ true }
    requires inside { All (IsInside left (w + 2)) rows.now }
    requires low { neg_ℤ (pos (2 ^ 32)) ≤ℤ left }
    requires width { w < 2 ^ 30 }
    requires height { h < 2 ^ 30 }
    ensures { IfOk result (λ bytes. HasCells rows.now left above w h bytes.items) }
{
    let mut bytes = Vec::with_capacity(alloc, w * h)?;
    let mut buffer: Vec<i16> = vec![in alloc; 0; w + 2]?;
    let steps = buffer.as_mut_slice();
    for row in 0..h {
        cover_row(&mut bytes, steps, rows, left, above, w, row)?;
    }
    Ok(bytes)
}

/// Puts the bytes of one row of pixels at the end, counted in `steps`.
fn cover_row(
    bytes: &mut Vec<u8>,
    steps: &mut [i16],
    rows: &FlatLists<Run>,
    left: i64,
    above: usize,
    w: usize,
    row: usize,
) -> Mem<()>
    requires ascends { all_ascend rows.now ≡ true }
    requires inside { All (IsInside left (length steps.old)) rows.now }
    requires low { neg_ℤ (pos (2 ^ 32)) ≤ℤ left }
    requires width { w ≤ length steps.old }
    requires height { row < 2 ^ 58 }
    ensures { IfOk result (λ _. HasMoreCells rows.now left above w row bytes.old.items bytes.new.items) }
{
    clear(steps);
    add_rows(steps, rows, left, above, row);
    push_row(bytes, steps, w)
}

/// The coverage of each pixel by the samples of a region, moved right by `px` and down by `py` samples, which are below 16.
/// The box is the least one that has all pixels with a sample. The last row of the region must be below 2^31.
pub fn cover(alloc: Global, region: &Region, px: u8, py: u8) -> Mem<Mask>
    requires px { px < 16 }
    requires py { py < 16 }
    requires rows { (region.now.top +ℤ pos (length region.now.rows)) ≤ℤ pos (2 ^ 31) }
    ensures mask { IfOk result (IsCover (member region.now.top region.now.rows) px py) }
    ensures canonical { IfOk result (λ m. is_mask m ≡ true) }
    ensures within { IfOk result (λ m. (limit : ℕ) → IsRegionWithin limit region.now.top region.now.rows
        → IsMaskWithin (limit / 16 + 1) (2 * (limit / 16) + 3) m) }
{
    let rows = region.rows();
    if rows.len() == 0 {
        return Ok(Mask::empty(alloc));
    }
    let span = span_of(rows);
    let across = axis_of(span.from, i64::from(span.to), px);
    let top = region.top();
    let down = axis_of(top, i64::from(top) + rows.len() as i64, py);
    let above = place_of(top, down.start);
    let (w, h) = (across.count, down.count);
    let bytes = cover_rows(alloc, rows, across.start, above, w as usize, h as usize)?;
    Ok(Mask::new(across.first, down.first, w, h, bytes))
}
