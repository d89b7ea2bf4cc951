//! Masks at their places.

ghost use Rattle.std.specs.Prelude.{◌≡◌, ℕ, pos, ◌+ℤ◌, ◌-ℤ◌, ◌≤ℤ◌, ◌≤◌, ◌<◌, ◌+◌, ◌-◌, ◌*◌, ◌&&◌, true, length, take, drop, slice_index};
ghost use Rattle.ass_num.specs.Coverage.{moved_value};
ghost use Rattle.blend.specs.Areas.{in_area, in_moved_box, placed_of, IsPart};

use crate::area::{Area, cut};
use ass_num::Mask;

/// A mask that is moved by `x` columns and `y` rows.
#[derive(Clone, Copy)]
pub struct Placed<'a> {
    pub mask: &'a Mask,
    pub x: i32,
    pub y: i32,
}

/// The part of an area that lies in the box of a placed mask.
pub fn cut_to_box(area: Area, placed: Placed<'_>) -> Area
    requires columns { area.left ≤ area.right }
    requires rows { area.top ≤ area.bottom }
    ensures part { IsPart result area }
    ensures both { (i j : ℕ) → in_area result i j ≡ (in_area area i j && in_moved_box (placed_of placed.entry) i j) }
{
    let left = i64::from(placed.mask.x()) + i64::from(placed.x);
    let top = i64::from(placed.mask.y()) + i64::from(placed.y);
    cut(
        area,
        left,
        top,
        left + i64::from(placed.mask.w()),
        top + i64::from(placed.mask.h()),
    )
}

/// How far column or row `i` lies past the side `at` of a box that is moved by `by`.
fn offset(i: u32, by: i32, at: i32) -> usize
    requires { (at +ℤ by) ≤ℤ pos i }
    ensures { pos i -ℤ by -ℤ at ≡ pos result }
{
    (i64::from(i) - i64::from(by) - i64::from(at)) as usize
}

/// So many bytes of a row from a column on, where rows have `w` bytes.
fn piece(bytes: &[u8], w: usize, row: usize, column: usize, count: usize) -> &[u8]
    requires { row * w + column + count ≤ length bytes.now }
    ensures bytes { result.now ≡ take count (drop (row * w + column) bytes.now) }
    ensures count { length result.now ≡ count }
{
    let from = row * w + column;
    &bytes[from..from + count]
}

/// The coverage of the columns from `left` to `right` of row `j` by a placed mask.
pub fn cover(placed: Placed<'_>, left: u32, right: u32, j: u32) -> &[u8]
    requires columns { left < right }
    requires first { in_moved_box (placed_of placed) left j ≡ true }
    requires last { in_moved_box (placed_of placed) (right - 1) j ≡ true }
    ensures count { length result.now ≡ right - left }
    ensures values { (k : ℕ) → k < right - left → slice_index result.now k ≡ moved_value (placed_of placed.entry) (pos (left + k)) (pos j) }
{
    let mask = placed.mask;
    let row = offset(j, placed.y, mask.y());
    let column = offset(left, placed.x, mask.x());
    piece(
        mask.bytes(),
        mask.w() as usize,
        row,
        column,
        (right - left) as usize,
    )
}
