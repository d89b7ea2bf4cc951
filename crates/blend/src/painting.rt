//! Painting by one thread.
ghost use Rattle.std.specs.Prelude.{◌≡◌, ◌+◌, ◌*◌, ◌^◌, ◌<◌, fold, length, map, IfOk};
ghost use Rattle.ass_num.specs.Limits.{IsFrameSize};
ghost use Rattle.blend.specs.Bands.{painted_all};
ghost use Rattle.blend.specs.Canvases.{drawn};
ghost use Rattle.blend.specs.Images.{image_value};
ghost use Rattle.blend.specs.Painting.{canvas_at, picture_of};

use crate::{AsMask, Canvas, Image, draw_rows};
use ass_num::{Mem, Size};
use std::alloc::Global;

/// Draws images on the `h` rows from row `top` on of a picture of width `w`, the lowest first.
pub(crate) fn paint_rows<M: AsMask>(
    images: &[Image<M>],
    pixels: &mut [u8],
    w: u32,
    top: u32,
    h: u32,
)
    requires bytes { length pixels.old ≡ 3 * (w * h) }
    requires rows { top + h < 2 ^ 32 }
    ensures { pixels.new ≡ painted_all (map (image_value M.mask) images.now) w (w * top) pixels.old }
{
    for image in images {
        draw_rows(pixels, w, top, h, image);
    }
}

/// Draws images on the pixels of a canvas.
fn paint_pixels<M: AsMask>(pixels: &mut [u8], size: &Size, images: &[Image<M>])
    requires size { IsFrameSize size.now }
    requires bytes { length pixels.old ≡ 3 * (size.now.w * size.now.h) }
    ensures { canvas_at size.now pixels.new ≡ fold drawn (canvas_at size.now pixels.old) (map (image_value M.mask) images.now) }
{
    paint_rows(images, pixels, size.w, 0, size.h);
}

/// The picture of images, from black, the lowest first. Only the canvas takes memory.
pub fn paint<M: AsMask>(alloc: Global, size: &Size, images: &[Image<M>]) -> Mem<Canvas>
    requires { IsFrameSize size.now }
    ensures { IfOk result (λ canvas. canvas ≡ picture_of size.now (map (image_value M.mask) images.now)) }
{
    let mut canvas = Canvas::new(alloc, size)?;
    paint_pixels(canvas.pixels_mut(), size, images);
    Ok(canvas)
}
