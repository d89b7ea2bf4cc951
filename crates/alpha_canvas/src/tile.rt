//! Tiles: pixels of a row that are painted together.

ghost use Rattle.std.specs.Prelude.{◌≡◌, ◌+◌, ◌*◌, ◌≤◌, ◌<◌, ℕ, false, pos, map, length, slice_index, slice_index_or, All};
ghost use Rattle.ass_num.specs.Coverage.{moved_value};
ghost use Rattle.ass_num.specs.Limits.{max_frame_side};
ghost use Rattle.blend.specs.Images.{image_value};
ghost use Rattle.alpha_canvas.specs.Alpha.{ArePixels, clear, formed_pixel, layers_at};
ghost use Rattle.alpha_canvas.specs.Bounds.{IsWithinAlpha, IsWritten};
ghost use Rattle.alpha_canvas.specs.Tiles.{AreLayers, IsPaintedOn};

use crate::columns::{columns_in_box, placed_mask};
use crate::layers::Layers;
use crate::pixel::{AlphaForm, Pixel};
use crate::tint::painted;
use blend::{AsMask, Image, cover};

/// How many pixels a tile has.
pub const TILE: u32 = 256;

/// Paints an image on pixels of row `j`, of which the first is in column `left`: on those from number `from` on, which its mask covers so far.
fn paint_covered<M: AsMask>(
    pixels: &mut [Layers],
    left: u32,
    j: u32,
    image: &Image<M>,
    from: usize,
    cover: &[u8],
)
    requires side { left + length pixels.old ≤ max_frame_side }
    requires count { from + length cover.now ≤ length pixels.old }
    requires cover { (k : ℕ) → k < length cover.now
        → slice_index cover.now k ≡ moved_value (M.mask image.now.mask, image.now.x, image.now.y) (pos (left + (from + k))) (pos j) }
    requires within { All IsWithinAlpha pixels.old }
    ensures painted { IsPaintedOn (image_value M.mask image.now) left j from (from + length cover.now) pixels.old pixels.new }
    ensures within { All IsWithinAlpha pixels.new }
{
    for (k, covered) in cover.iter().enumerate() {
        let at = from + k;
        pixels[at] = painted(pixels[at], image, *covered, left + at as u32, j);
    }
}

/// Paints an image on pixels of row `j`, of which the first is in column `left`, and says whether the box of its mask has any of them.
fn paint_image<M: AsMask>(pixels: &mut [Layers], left: u32, j: u32, image: &Image<M>) -> bool
    requires side { left + length pixels.old ≤ max_frame_side }
    requires within { All IsWithinAlpha pixels.old }
    ensures painted { IsPaintedOn (image_value M.mask image.now) left j 0 (length pixels.old) pixels.old pixels.new }
    ensures within { All IsWithinAlpha pixels.new }
    ensures same { result ≡ false → pixels.new ≡ pixels.old }
{
    let placed = placed_mask(image);
    let own = columns_in_box(placed, left, left + pixels.len() as u32, j);
    if own.left >= own.right {
        return false;
    }
    let covered = cover(placed, own.left, own.right, j);
    paint_covered(pixels, left, j, image, (own.left - left) as usize, covered);
    true
}

/// Paints images, the lowest first, on clear pixels of row `j`, of which the first is in column `left`, and says whether the box of any mask has some of
/// them.
fn paint_images<M: AsMask>(pixels: &mut [Layers], left: u32, j: u32, images: &[Image<M>]) -> bool
    requires side { left + length pixels.old ≤ max_frame_side }
    requires clear { All (λ p. p ≡ clear) pixels.old }
    ensures layers { AreLayers (map (image_value M.mask) images.now) left j pixels.new }
    ensures count { length pixels.new ≡ length pixels.old }
    ensures within { All IsWithinAlpha pixels.new }
    ensures clear { result ≡ false → All (λ p. p ≡ clear) pixels.new }
{
    let mut any = false;
    for image in images {
        any |= paint_image(pixels, left, j, image);
    }
    any
}

/// Writes pixel `k`.
fn write(bytes: &mut [u8], k: usize, pixel: Pixel)
    requires { 4 * k + 4 ≤ length bytes.old }
    ensures { IsWritten k pixel bytes.old bytes.new }
{
    bytes[4 * k] = pixel.r;
    bytes[4 * k + 1] = pixel.g;
    bytes[4 * k + 2] = pixel.b;
    bytes[4 * k + 3] = pixel.a;
}

/// Writes pixels in a form.
fn write_pixels(bytes: &mut [u8], form: AlphaForm, pixels: &[Layers])
    requires bytes { length bytes.old ≡ 4 * length pixels.now }
    requires within { All IsWithinAlpha pixels.now }
    ensures { ArePixels (λ k. formed_pixel form (slice_index_or pixels.now k clear)) (length pixels.now) bytes.new }
{
    for (k, layers) in pixels.iter().enumerate() {
        write(bytes, k, layers.pixel(form));
    }
}

/// Writes pixels in a form, of which all are clear where `any` is false.
fn write_tile(bytes: &mut [u8], form: AlphaForm, pixels: &[Layers], any: bool)
    requires bytes { length bytes.old ≡ 4 * length pixels.now }
    requires within { All IsWithinAlpha pixels.now }
    requires clear { any ≡ false → All (λ p. p ≡ clear) pixels.now }
    ensures { ArePixels (λ k. formed_pixel form (slice_index_or pixels.now k clear)) (length pixels.now) bytes.new }
{
    if any {
        write_pixels(bytes, form, pixels);
    } else {
        bytes.fill(0);
    }
}

/// Paints `count` pixels of row `j` of the picture of images, of which the first is in column `left`.
pub fn paint_tile<M: AsMask>(
    images: &[Image<M>],
    form: AlphaForm,
    bytes: &mut [u8],
    left: u32,
    count: u32,
    j: u32,
)
    requires side { left + count ≤ max_frame_side }
    requires count { count ≤ 256 }
    requires bytes { length bytes.old ≡ 4 * count }
    ensures { ArePixels (λ k. formed_pixel form (layers_at (map (image_value M.mask) images.now) (left + k) j)) count bytes.new }
{
    let mut tile = [Layers::clear(); 256];
    let pixels = &mut tile[..count as usize];
    let any = paint_images(pixels, left, j, images);
    write_tile(bytes, form, pixels, any);
}
