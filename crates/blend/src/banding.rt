//! Painting by several threads at once, each a band of rows.
ghost use Rattle.std.specs.Prelude.{◌≡◌, ℕ, ◌<◌, ◌≤◌, ◌+◌, ◌*◌, fold, length, map, IfOk};
ghost use Rattle.ass_num.specs.Limits.{IsFrameSize};
ghost use Rattle.blend.specs.Bands.{painted_all};
ghost use Rattle.blend.specs.Canvases.{drawn};
ghost use Rattle.blend.specs.Images.{image_value};
ghost use Rattle.blend.specs.Painting.{IsBand, canvas_at, picture_of};

use crate::painting::paint_rows;
use crate::{AsMask, Canvas, Image};
use ass_num::{Mem, Size};
use std::alloc::Global;
use std::thread::{Threads, for_each_chunk_mut};

/// Draws images on a band of a picture's rows, which begins at this byte of the whole.
fn paint_band<M: AsMask>(images: &[Image<M>], pixels: &mut [u8], size: &Size, start: usize)
    requires size { IsFrameSize size.now }
    requires some { 0 < size.now.w }
    requires band { IsBand size.now start (length pixels.old) }
    ensures { (top : ℕ) → start ≡ 3 * (size.now.w * top)
        → pixels.new ≡ painted_all (map (image_value M.mask) images.now) size.now.w (size.now.w * top) pixels.old }
{
    let row = 3 * size.w as usize;
    let top = (start / row) as u32;
    let h = (pixels.len() / row) as u32;
    paint_rows(images, pixels, size.w, top, h);
}

/// Draws images on the pixels of a canvas, in so many bands of rows at once.
fn paint_pixels_in_bands<R: Threads + Sync, M: AsMask + Sync>(
    rt: &R,
    pixels: &mut [u8],
    size: &Size,
    images: &[Image<M>],
    bands: u32,
)
    requires size { IsFrameSize size.now }
    requires some { 1 ≤ bands }
    requires bytes { length pixels.old ≡ 3 * (size.now.w * size.now.h) }
    ensures { canvas_at size.now pixels.new ≡ fold drawn (canvas_at size.now pixels.old) (map (image_value M.mask) images.now) }
{
    if pixels.is_empty() {
        return;
    }
    let rows = size.h.div_ceil(bands) as usize;
    for_each_chunk_mut(
        rt,
        pixels,
        3 * size.w as usize * rows,
        &|start: usize, band: &mut [u8]|
            requires { IsFrameSize size.now × (0 < size.now.w) × IsBand size.now start (length band.now) }
            ensures { (top : ℕ) → start ≡ 3 * (size.entry.now.w * top)
                → band.exit.now ≡ painted_all (map (image_value M.mask) images.entry.now) size.entry.now.w (size.entry.now.w * top) band.entry.now }
        { paint_band(images, band, size, start) },
    );
}

/// The picture of images, from black, drawn in so many bands of rows at once, each by a thread of its own where one can be made. It is
/// what [`crate::paint`] gives; only the canvas takes memory.
pub fn paint_bands<R: Threads + Sync, M: AsMask + Sync>(
    rt: &R,
    alloc: Global,
    size: &Size,
    images: &[Image<M>],
    bands: u32,
) -> Mem<Canvas>
    requires size { IsFrameSize size.now }
    requires some { 1 ≤ bands }
    ensures { IfOk result (λ canvas. canvas ≡ picture_of size.now (map (image_value M.mask) images.now)) }
{
    let mut canvas = Canvas::new(alloc, size)?;
    paint_pixels_in_bands(rt, canvas.pixels_mut(), size, images, bands);
    Ok(canvas)
}
