//! Painting pictures with alpha by several threads at once, each a band of rows.

ghost use Rattle.std.specs.Prelude.{◌≡◌, ℕ, ◌<◌, ◌≤◌, ◌*◌, length, map};
ghost use Rattle.ass_num.specs.Limits.{IsFrameSize, max_frame_side};
ghost use Rattle.alpha_bands.specs.AlphaBands.{AreBandRows};
ghost use Rattle.alpha_canvas.specs.Alpha.{AreAlphaRows};
ghost use Rattle.blend.specs.Images.{image_value};

use alpha_canvas::{AlphaForm, paint_alpha_rows};
use ass_num::Size;
use blend::{AsMask, Image};
use std::thread::{Threads, for_each_chunk_mut};

/// Paints images over nothing into a band of a picture's rows, which begins at this byte of the whole.
fn paint_band<M: AsMask>(
    images: &[Image<M>],
    form: AlphaForm,
    band: &mut [u8],
    w: u32,
    start: usize,
)
    requires side { w ≤ max_frame_side }
    requires some { 0 < w }
    requires rows { AreBandRows w start (length band.old) }
    ensures { (top h : ℕ) → start ≡ 4 * (w * top) → length band.old ≡ 4 * (w * h)
        → AreAlphaRows form (map (image_value M.mask) images.now) w top h band.new }
{
    let row = 4 * w as usize;
    let top = (start / row) as u32;
    let h = (band.len() / row) as u32;
    paint_alpha_rows(images, form, band, w, top, h);
}

/// Paints images over nothing, the lowest first, into the pixels of a picture, in so many bands of rows at once, each by a thread of
/// its own where one can be made. It is what [`alpha_canvas::paint_alpha_rows`] paints of all rows, and takes no memory.
pub fn paint_alpha_bands<R: Threads + Sync, M: AsMask + Sync>(
    rt: &R,
    images: &[Image<M>],
    form: AlphaForm,
    bytes: &mut [u8],
    size: &Size,
    bands: u32,
)
    requires size { IsFrameSize size.now }
    requires some { 1 ≤ bands }
    requires bytes { length bytes.old ≡ 4 * (size.now.h * size.now.w) }
    ensures { AreAlphaRows form (map (image_value M.mask) images.now) size.now.w 0 size.now.h bytes.new }
{
    if bytes.is_empty() {
        return;
    }
    let rows = size.h.div_ceil(bands) as usize;
    for_each_chunk_mut(
        rt,
        bytes,
        4 * size.w as usize * rows,
        &|start: usize, band: &mut [u8]|
            requires { IsFrameSize size.now × (0 < size.now.w) × AreBandRows size.now.w start (length band.now) }
            ensures { (top h : ℕ) → start ≡ 4 * (size.entry.now.w * top) → length band.entry.now ≡ 4 * (size.entry.now.w * h)
                → AreAlphaRows form (map (image_value M.mask) images.entry.now) size.entry.now.w top h band.exit.now }
        { paint_band(images, form, band, size.w, start) },
    );
}
