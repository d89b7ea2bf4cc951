//! What falls on a pixel.

ghost use Rattle.std.specs.Prelude.{◌≡◌, ◌-◌, ◌*◌, ◌≤◌, ◌<◌, ◌+◌, ℕ, pos, int_lt, if◌then◌else◌};
ghost use Rattle.ass_num.specs.Coverage.{moved_value};
ghost use Rattle.ass_num.specs.Limits.{max_frame_side};
ghost use Rattle.blend.specs.Areas.{placed_of, in_moved_box};
ghost use Rattle.blend.specs.Blending.{Rect, by_255, in_rect, stencilled, tint_at};
ghost use Rattle.blend.specs.Images.{image_value, stencil_value};
ghost use Rattle.alpha_canvas.specs.Alpha.{under};
ghost use Rattle.alpha_canvas.specs.Bounds.{IsWithinAlpha};

use crate::layers::Layers;
use ass_num::Rgba;
use blend::{AsMask, Image, Placed, Stencil, cover};

/// Whether pixel (i, j) lies in the box of a placed mask.
fn is_in_box(placed: Placed<'_>, i: u32, j: u32) -> bool
    ensures { result ≡ in_moved_box (placed_of placed.entry) i j }
{
    let left = i64::from(placed.mask.x()) + i64::from(placed.x);
    let top = i64::from(placed.mask.y()) + i64::from(placed.y);
    is_in_rect(
        left,
        top,
        left + i64::from(placed.mask.w()),
        top + i64::from(placed.mask.h()),
        i,
        j,
    )
}

/// Whether pixel (i, j) lies in a rectangle.
fn is_in_rect(x1: i64, y1: i64, x2: i64, y2: i64, i: u32, j: u32) -> bool
    ensures { result ≡ in_rect x1 y1 x2 y2 (pos i) (pos j) }
{
    let (i, j) = (i64::from(i), i64::from(j));
    (x1 <= i && i < x2) && (y1 <= j && j < y2)
}

/// What a placed mask has of pixel (i, j).
fn value(placed: Placed<'_>, i: u32, j: u32) -> u8
    requires { i < max_frame_side }
    ensures { result ≡ moved_value (placed_of placed.entry) (pos i) (pos j) }
{
    if is_in_box(placed, i, j) {
        cover(placed, i, i + 1, j)[0]
    } else {
        0
    }
}

/// A product of two numbers in 255ths.
fn by_255(a: u8, b: u8) -> u8
    ensures { result ≡ by_255 (a * b) }
{
    ((u16::from(a) * u16::from(b) + 127) / 255) as u8
}

/// What a rectangle leaves of the coverage `m` of pixel (i, j), or its inverse.
fn in_rect_only(x1: i32, y1: i32, x2: i32, y2: i32, inverse: bool, i: u32, j: u32, m: u8) -> u8
    ensures { result ≡ stencilled (Rect x1 y1 x2 y2 inverse) i j m }
{
    let inside = is_in_rect(
        i64::from(x1),
        i64::from(y1),
        i64::from(x2),
        i64::from(y2),
        i,
        j,
    );
    if inside {
        if inverse { 0 } else { m }
    } else {
        if inverse { m } else { 0 }
    }
}

/// What a stencil leaves of the coverage `m` of pixel (i, j).
fn stencilled<M: AsMask>(stencil: &Stencil<M>, i: u32, j: u32, m: u8) -> u8
    requires { i < max_frame_side }
    ensures { result ≡ stencilled (stencil_value M.mask stencil.now) i j m }
{
    match stencil {
        Stencil::Free => m,
        Stencil::Rect {
            x1,
            y1,
            x2,
            y2,
            inverse,
        } => in_rect_only(*x1, *y1, *x2, *y2, *inverse, i, j, m),
        Stencil::Drawn {
            mask,
            x,
            y,
            inverse,
        } => {
            let over = Placed {
                mask: mask.as_mask(),
                x: *x,
                y: *y,
            };
            let covered = value(over, i, j);
            by_255(m, if *inverse { 255 - covered } else { covered })
        }
    }
}

/// The colour of an image in column `i`.
fn colour_at<M: AsMask>(image: &Image<M>, i: u32) -> Rgba
    ensures { result ≡ (if int_lt (pos i) image.now.edge then image.now.left else image.now.right) }
{
    if i64::from(i) < i64::from(image.edge) {
        image.left
    } else {
        image.right
    }
}

/// The weight that an image has at pixel (i, j), of which its mask covers so much.
fn weight_at<M: AsMask>(image: &Image<M>, covered: u8, i: u32, j: u32) -> u8
    requires column { i < max_frame_side }
    requires covered { covered ≡ moved_value (M.mask image.now.mask, image.now.x, image.now.y) (pos i) (pos j) }
    ensures { result ≡ (tint_at (image_value M.mask image.now) i j).weight }
{
    let left = stencilled(&image.stencil, i, j, covered);
    by_255(left, 255 - colour_at(image, i).a)
}

/// The layers of pixel (i, j) after an image was painted on it, whose mask covers so much of it.
pub fn painted<M: AsMask>(layers: Layers, image: &Image<M>, covered: u8, i: u32, j: u32) -> Layers
    requires column { i < max_frame_side }
    requires covered { covered ≡ moved_value (M.mask image.now.mask, image.now.x, image.now.y) (pos i) (pos j) }
    requires within { IsWithinAlpha layers }
    ensures value { result ≡ under layers (tint_at (image_value M.mask image.now) i j) }
    ensures within { IsWithinAlpha result }
{
    if covered == 0 {
        layers
    } else {
        layers.under(colour_at(image, i), weight_at(image, covered, i, j))
    }
}
