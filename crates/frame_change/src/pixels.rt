//! The pixels at which two pictures differ.

ghost use Rattle.std.specs.Prelude.{◌≡◌, ◌↔◌, None, IfSome};
ghost use Rattle.ass_num.specs.Limits.{IsFrameSize};
ghost use Rattle.frame_change.specs.Changes.{IsPicture, IsLeastChanged};

use crate::bytes::{first_change, last_change};
use crate::columns::changed_columns;
use ass_num::Size;

/// A box of pixels: from `x1` and `y1` up to but not with `x2` and `y2`.
#[derive(Clone, Copy, Debug, PartialEq, Eq, Hash)]
pub struct Changed {
    pub x1: u32,
    pub y1: u32,
    pub x2: u32,
    pub y2: u32,
}

/// The least box that has every pixel at which two pictures of a size differ; `None` where they are equal. A picture has
/// three bytes for each pixel, row by row. It takes no memory.
pub fn changed_box(size: &Size, a: &[u8], b: &[u8]) -> Option<Changed>
    requires size { IsFrameSize size.now }
    requires a { IsPicture size.now a.now }
    requires b { IsPicture size.now b.now }
    ensures none { (result ≡ None) ↔ (a.now ≡ b.now) }
    ensures some { IfSome result (IsLeastChanged size.now a.now b.now) }
{
    let first = first_change(a, b);
    if first == a.len() {
        return None;
    }
    let w = size.w as usize;
    let y1 = first / (3 * w);
    let y2 = (last_change(a, b) - 1) / (3 * w) + 1;
    let (x1, x2) = changed_columns(a, b, w, y1, y2);
    Some(Changed {
        x1: x1 as u32,
        y1: y1 as u32,
        x2: x2 as u32,
        y2: y2 as u32,
    })
}
