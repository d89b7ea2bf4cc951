//! The columns in which some rows of two pictures differ.

ghost use Rattle.std.specs.Prelude.{◌≡◌, ◌+◌, ◌*◌, ◌≤◌, length, take, drop};
ghost use Rattle.frame_change.specs.Rows.{IsLeft, IsRight, AreColumns};

use crate::bytes::{first_change, last_change};

/// The first of the columns left of `left` in which two rows differ, or `left`.
fn left_of(a: &[u8], b: &[u8], left: usize) -> usize
    requires same { length a.now ≡ length b.now }
    requires within { 3 * left ≤ length a.now }
    ensures { IsLeft a.now b.now left result }
{
    first_change(&a[..3 * left], &b[..3 * left]) / 3
}

/// The place behind the last of the columns from `right` on in which two rows differ, or `right`.
fn right_of(a: &[u8], b: &[u8], right: usize) -> usize
    requires same { length a.now ≡ length b.now }
    requires within { 3 * right ≤ length a.now }
    ensures { IsRight a.now b.now right result }
{
    right + last_change(&a[3 * right..], &b[3 * right..]).div_ceil(3)
}

/// The row `y` of a picture of so many columns.
fn row(bytes: &[u8], w: usize, y: usize) -> &[u8]
    requires { (y + 1) * (3 * w) ≤ length bytes.now }
    ensures row { result.now ≡ take (3 * w) (drop (y * (3 * w)) bytes.now) }
    ensures len { length result.now ≡ 3 * w }
{
    &bytes[y * (3 * w)..][..3 * w]
}

/// The first column in which the rows from `first` up to `last` differ, and the column behind the last such one.
pub fn changed_columns(a: &[u8], b: &[u8], w: usize, first: usize, last: usize) -> (usize, usize)
    requires same { length a.now ≡ length b.now }
    requires order { first ≤ last }
    requires within { last * (3 * w) ≤ length a.now }
    ensures { AreColumns w a.now b.now first last result.0 result.1 }
{
    let mut left = w;
    let mut right = 0;
    for y in first..last {
        let a_row = row(a, w, y);
        let b_row = row(b, w, y);
        left = left_of(a_row, b_row, left);
        right = right_of(a_row, b_row, right);
    }
    (left, right)
}
