//! Painting pictures with alpha.

ghost use Rattle.std.specs.Prelude.{◌≡◌, ◌+◌, ◌*◌, ◌^◌, ◌≤◌, ◌<◌, ℕ, map, length, IfOk};
ghost use Rattle.ass_num.specs.Limits.{IsFrameSize, max_frame_side};
ghost use Rattle.blend.specs.Images.{image_value};
ghost use Rattle.alpha_canvas.specs.Alpha.{AreAlphaRows, ArePixels, layers_at, formed_pixel};

use crate::columns::columns_of_all;
use crate::pixel::AlphaForm;
use crate::tile::{TILE, paint_tile};
use ass_num::{Mem, Size};
use blend::{AsMask, Image};
use std::alloc::Global;

/// Paints `count` pixels of row `j` of the picture of images, of which the first is in column `left`.
fn paint_columns<M: AsMask>(
    images: &[Image<M>],
    form: AlphaForm,
    bytes: &mut [u8],
    left: u32,
    count: u32,
    j: u32,
)
    requires side { left + count ≤ max_frame_side }
    requires bytes { length bytes.old ≡ 4 * count }
    ensures { ArePixels (λ k. formed_pixel form (layers_at (map (image_value M.mask) images.now) (left + k) j)) count bytes.new }
{
    let tiles = count / TILE;
    for tile in 0..tiles {
        let first = TILE * tile;
        let start = 4 * first as usize;
        let end = start + 4 * TILE as usize;
        paint_tile(images, form, &mut bytes[start..end], left + first, TILE, j);
    }
    let first = TILE * tiles;
    let rest = &mut bytes[4 * first as usize..];
    paint_tile(images, form, rest, left + first, count - first, j);
}

/// Row `j` of the picture of images.
fn paint_row<M: AsMask>(images: &[Image<M>], form: AlphaForm, row: &mut [u8], w: u32, j: u32)
    requires side { w ≤ max_frame_side }
    requires bytes { length row.old ≡ 4 * w }
    ensures { ArePixels (λ i. formed_pixel form (layers_at (map (image_value M.mask) images.now) i j)) w row.new }
{
    row.fill(0);
    let all = columns_of_all(images, w, j);
    if all.left < all.right {
        let reached = &mut row[4 * all.left as usize..4 * all.right as usize];
        paint_columns(images, form, reached, all.left, all.right - all.left, j);
    }
}

/// Paints images over nothing, the lowest first, into the `h` rows from row `top` on of a picture of width `w`: four bytes for each
/// pixel, red, green, blue and alpha. What was in them is lost. It takes no memory.
pub fn paint_alpha_rows<M: AsMask>(
    images: &[Image<M>],
    form: AlphaForm,
    bytes: &mut [u8],
    w: u32,
    top: u32,
    h: u32,
)
    requires side { w ≤ max_frame_side }
    requires bytes { length bytes.old ≡ 4 * (h * w) }
    requires rows { top + h < 2 ^ 32 }
    ensures { AreAlphaRows form (map (image_value M.mask) images.now) w top h bytes.new }
{
    let row = 4 * w as usize;
    for j in 0..h {
        let start = j as usize * row;
        paint_row(images, form, &mut bytes[start..start + row], w, top + j);
    }
}

/// The picture of images with alpha, painted over nothing, the lowest first: four bytes for each pixel, red, green, blue and alpha,
/// row by row. Only these bytes take memory.
pub fn paint_alpha<M: AsMask>(
    alloc: Global,
    size: &Size,
    form: AlphaForm,
    images: &[Image<M>],
) -> Mem<Vec<u8>>
    requires { IsFrameSize size.now }
    ensures { IfOk result (λ bytes. AreAlphaRows form (map (image_value M.mask) images.now) size.now.w 0 size.now.h bytes.items) }
{
    let count = 4 * (size.w as usize * size.h as usize);
    let mut bytes = vec![in alloc; 0; count]?;
    paint_alpha_rows(images, form, bytes.as_mut_slice(), size.w, 0, size.h);
    Ok(bytes)
}
