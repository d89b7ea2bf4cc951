//! Drawing an image under a stencil.

ghost use Rattle.std.specs.Prelude.{◌≡◌, ◌<◌, ◌+◌, ◌*◌, ◌^◌, length};
ghost use Rattle.blend.specs.Blending.{painted};
ghost use Rattle.blend.specs.Areas.{placed_of, placed_stencil, tints, within, with_tints, IsAreaCovered, IsInBand, IsMeeting};
ghost use Rattle.blend.specs.Images.{image_value, stencil_value};

use crate::area::{Area, Band, cut, held};
use crate::as_mask::AsMask;
use crate::fill::{fill, fill_around, fill_under};
use crate::image::Image;
use crate::placed::{Placed, cut_to_box};
use crate::stencil::Stencil;
use ass_num::Rgba;

/// What a band has of the box of a placed mask.
fn meeting(band: Band, placed: Placed<'_>) -> Area
    requires { band.top + band.h < 2 ^ 32 }
    ensures { IsMeeting result band (placed_of placed.entry) }
{
    let whole = Area {
        left: 0,
        top: band.top,
        right: band.w,
        bottom: band.top + band.h,
    };
    cut_to_box(whole, placed)
}

/// Blends a colour into an area under a mask.
fn draw_under(
    rows: &mut [u8],
    band: Band,
    area: Area,
    placed: Placed<'_>,
    colour: Rgba,
    over: Placed<'_>,
    inverse: bool,
)
    requires bytes { length rows.old ≡ 3 * (band.w * band.h) }
    requires in_band { IsInBand area band }
    requires covered { IsAreaCovered area (placed_of placed) }
    ensures { rows.new ≡ with_tints band (within area
        (tints colour (placed_of placed.entry) (placed_stencil (placed_of over.entry) inverse))) rows.old }
{
    let part = cut_to_box(area, over);
    if inverse {
        fill_around(rows, band, area, part, placed, colour);
    }
    fill_under(rows, band, part, placed, colour, over, inverse);
}

/// Blends a colour into an area that the placed mask's box has, under a stencil.
fn draw_area<M: AsMask>(
    rows: &mut [u8],
    band: Band,
    area: Area,
    placed: Placed<'_>,
    colour: Rgba,
    stencil: &Stencil<M>,
)
    requires bytes { length rows.old ≡ 3 * (band.w * band.h) }
    requires in_band { IsInBand area band }
    requires covered { IsAreaCovered area (placed_of placed) }
    ensures { rows.new ≡ with_tints band (within area (tints colour (placed_of placed.entry) (stencil_value M.mask stencil.now))) rows.old }
{
    match stencil {
        Stencil::Free => fill(rows, band, area, placed, colour),
        Stencil::Rect {
            x1,
            y1,
            x2,
            y2,
            inverse,
        } => {
            let part = cut(
                area,
                i64::from(*x1),
                i64::from(*y1),
                i64::from(*x2),
                i64::from(*y2),
            );
            if *inverse {
                fill_around(rows, band, area, part, placed, colour);
            } else {
                fill(rows, band, part, placed, colour);
            }
        }
        Stencil::Drawn {
            mask,
            x,
            y,
            inverse,
        } => {
            let over = Placed {
                mask: mask.as_mask(),
                x: *x,
                y: *y,
            };
            draw_under(rows, band, area, placed, colour, over, *inverse);
        }
    }
}

/// Draws an image on the `h` rows from row `top` on of a picture of width `w`. It takes no memory.
pub fn draw_rows<M: AsMask>(rows: &mut [u8], w: u32, top: u32, h: u32, image: &Image<M>)
    requires bytes { length rows.old ≡ 3 * (w * h) }
    requires rows { top + h < 2 ^ 32 }
    ensures { rows.new ≡ painted (image_value M.mask image.now) w (w * top) rows.old }
{
    let band = Band { w, top, h };
    let placed = Placed {
        mask: image.mask.as_mask(),
        x: image.x,
        y: image.y,
    };
    let area = meeting(band, placed);
    let middle = held(i64::from(image.edge), area.left, area.right);
    let before = Area {
        right: middle,
        ..area
    };
    let from = Area {
        left: middle,
        ..area
    };
    draw_area(rows, band, before, placed, image.left, &image.stencil);
    draw_area(rows, band, from, placed, image.right, &image.stencil);
}
