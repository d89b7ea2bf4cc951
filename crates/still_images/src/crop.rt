//! The part of a picture in a box.

ghost use Rattle.std.specs.Prelude.{◌≡◌, ◌≤◌, ◌<◌, IfOk};
ghost use Rattle.still_images.specs.Boxes.{HasPixels, IsOnFrame, cropped, cropped_row};

use ass_num::{Mem, Size};
use frame_change::Changed;
use std::alloc::Global;

/// Row `y` of the part of a picture in a box.
fn cropped_row<'a>(depth: usize, size: &Size, part: &Changed, pixels: &'a [u8], y: u32) -> &'a [u8]
    requires depth { 1 ≤ depth }
    requires pixels { HasPixels depth size.now pixels.now }
    requires part { IsOnFrame size.now part.now }
    requires y { y < size.now.h }
    ensures { result.now ≡ cropped_row depth size.now.w part.now pixels.now y }
{
    let first = depth * (y as usize * size.w as usize + part.x1 as usize);
    &pixels[first..][..depth * (part.x2 - part.x1) as usize]
}

/// The part of a picture in a box.
pub fn cropped(
    alloc: Global,
    depth: usize,
    size: &Size,
    part: &Changed,
    pixels: &[u8],
) -> Mem<Vec<u8>>
    requires depth { 1 ≤ depth }
    requires pixels { HasPixels depth size.now pixels.now }
    requires part { IsOnFrame size.now part.now }
    ensures { IfOk result (λ bytes. bytes.items ≡ cropped depth size.now.w part.now pixels.now) }
{
    let mut bytes = Vec::new(alloc);
    for y in part.y1..part.y2 {
        bytes.extend_from_slice(cropped_row(depth, size, part, pixels, y))?;
    }
    Ok(bytes)
}
