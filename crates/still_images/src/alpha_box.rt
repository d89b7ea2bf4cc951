//! The pixels of four bytes at which two pictures differ.

ghost use Rattle.std.specs.Prelude.{◌≡◌, ◌≢◌, ◌+◌, ◌-◌, ◌*◌, ◌^◌, ◌≤◌, ◌<◌, drop, length, take, slice_index, Some};
ghost use Rattle.ass_num.specs.Limits.{IsFrameSize, max_frame_side};
ghost use Rattle.frame_change.specs.Rows.{AreSame};
ghost use Rattle.still_images.specs.Boxes.{HasPixels, IsBoxOfPixels};
ghost use Rattle.still_images.specs.Rows.{AreColumnsOf, with_columns};

use ass_num::Size;
use frame_change::Changed;

/// The columns of a row that differ: from the first one up to but not with the end.
#[derive(Clone, Copy, Debug)]
pub struct Columns {
    pub first: usize,
    pub end: usize,
}

/// The place of the first byte that differs, or how many bytes there are.
fn first_change(a: &[u8], b: &[u8]) -> usize
    requires { length a.now ≡ length b.now }
    ensures within { result ≤ length a.now }
    ensures same { AreSame a.now b.now 0 result }
    ensures differs { result < length a.now → slice_index a.now result ≢ slice_index b.now result }
{
    let mut i = 0;
    while i < a.len() && a[i] == b[i] {
        i += 1;
    }
    i
}

/// The place behind the last byte that differs, or 0.
fn last_change(a: &[u8], b: &[u8]) -> usize
    requires { length a.now ≡ length b.now }
    ensures within { result ≤ length a.now }
    ensures same { AreSame a.now b.now result (length a.now) }
    ensures differs { 0 < result → slice_index a.now (result - 1) ≢ slice_index b.now (result - 1) }
{
    let mut end = a.len();
    while end > 0 && a[end - 1] == b[end - 1] {
        end -= 1;
    }
    end
}

/// The columns in which two rows differ.
fn changed_columns(a: &[u8], b: &[u8]) -> Option<Columns>
    requires { length a.now ≡ length b.now }
    ensures { AreColumnsOf a.now b.now result }
{
    let first = first_change(a, b);
    if first == a.len() {
        return None;
    }
    Some(Columns {
        first: first / 4,
        end: (last_change(a, b) - 1) / 4 + 1,
    })
}

/// The box that has a box, if there is one, and the columns of the row `y` under it.
fn row_under(changed: Option<Changed>, columns: Columns, y: u32) -> Changed
    requires first { columns.first < 2 ^ 32 }
    requires end { columns.end < 2 ^ 32 }
    requires y { y < max_frame_side }
    ensures { Some result ≡ with_columns changed (Some columns) y }
{
    let x1 = columns.first as u32;
    let x2 = columns.end as u32;
    match changed {
        None => Changed {
            x1,
            y1: y,
            x2,
            y2: y + 1,
        },
        Some(above) => Changed {
            x1: above.x1.min(x1),
            y1: above.y1,
            x2: above.x2.max(x2),
            y2: y + 1,
        },
    }
}

/// The row `y` of a picture of so many columns.
fn row_of(bytes: &[u8], w: usize, y: usize) -> &[u8]
    requires { (y + 1) * (4 * w) ≤ length bytes.now }
    ensures row { result.now ≡ take (4 * w) (drop (y * (4 * w)) bytes.now) }
    ensures len { length result.now ≡ 4 * w }
{
    &bytes[y * (4 * w)..][..4 * w]
}

/// The least box that has every pixel at which two pictures of a size differ; `None` where they are equal. A picture has
/// four bytes for each pixel, row by row. It takes no memory.
pub fn alpha_box(size: &Size, a: &[u8], b: &[u8]) -> Option<Changed>
    requires size { IsFrameSize size.now }
    requires a { HasPixels 4 size.now a.now }
    requires b { HasPixels 4 size.now b.now }
    ensures { IsBoxOfPixels 4 size.now a.now b.now result }
{
    let mut changed = None;
    for y in 0..size.h {
        let a_row = row_of(a, size.w as usize, y as usize);
        let b_row = row_of(b, size.w as usize, y as usize);
        match changed_columns(a_row, b_row) {
            None => {}
            Some(columns) => changed = Some(row_under(changed, columns, y)),
        }
    }
    changed
}
