//! Blending one colour into areas that masks cover.

ghost use Rattle.std.specs.Prelude.{◌≡◌, ◌*◌, length};
ghost use Rattle.blend.specs.Blending.{Free};
ghost use Rattle.blend.specs.Areas.{IsAreaCovered, IsInBand, IsPart, placed_of, placed_stencil, tints, with_tints, within, without};

use crate::area::{Area, Band};
use crate::placed::{Placed, cover};
use crate::span::{solid, tint_span, tint_span_under};
use ass_num::Rgba;

/// Blends a colour into an area that the placed mask's box has.
pub fn fill(rows: &mut [u8], band: Band, area: Area, placed: Placed<'_>, colour: Rgba)
    requires bytes { length rows.old ≡ 3 * (band.w * band.h) }
    requires in_band { IsInBand area band }
    requires covered { IsAreaCovered area (placed_of placed) }
    ensures { rows.new ≡ with_tints band (within area (tints colour (placed_of placed.entry) Free)) rows.old }
{
    if area.left >= area.right {
        return;
    }
    let count = (area.right - area.left) as usize;
    let solid = solid(colour);
    for j in area.top..area.bottom {
        let start = (j - band.top) as usize * band.w as usize + area.left as usize;
        let bytes = cover(placed, area.left, area.right, j);
        tint_span(
            &mut rows[3 * start..3 * (start + count)],
            bytes,
            colour,
            &solid,
        );
    }
}

/// Blends a colour into an area that the boxes of the placed mask and of a drawn stencil have.
pub fn fill_under(
    rows: &mut [u8],
    band: Band,
    area: Area,
    placed: Placed<'_>,
    colour: Rgba,
    over: Placed<'_>,
    inverse: bool,
)
    requires bytes { length rows.old ≡ 3 * (band.w * band.h) }
    requires in_band { IsInBand area band }
    requires covered { IsAreaCovered area (placed_of placed) }
    requires over { IsAreaCovered area (placed_of over) }
    ensures { rows.new ≡ with_tints band (within area
        (tints colour (placed_of placed.entry) (placed_stencil (placed_of over.entry) inverse))) rows.old }
{
    if area.left >= area.right {
        return;
    }
    let count = (area.right - area.left) as usize;
    for j in area.top..area.bottom {
        let start = (j - band.top) as usize * band.w as usize + area.left as usize;
        let bytes = cover(placed, area.left, area.right, j);
        let hiding = cover(over, area.left, area.right, j);
        tint_span_under(
            &mut rows[3 * start..3 * (start + count)],
            bytes,
            hiding,
            inverse,
            colour,
        );
    }
}

/// Blends a colour into what an area has outside a part of it.
pub fn fill_around(
    rows: &mut [u8],
    band: Band,
    area: Area,
    hole: Area,
    placed: Placed<'_>,
    colour: Rgba,
)
    requires bytes { length rows.old ≡ 3 * (band.w * band.h) }
    requires in_band { IsInBand area band }
    requires covered { IsAreaCovered area (placed_of placed) }
    requires hole { IsPart hole area }
    ensures { rows.new ≡ with_tints band (without hole (within area (tints colour (placed_of placed.entry) Free))) rows.old }
{
    let above = Area {
        bottom: hole.top,
        ..area
    };
    let below = Area {
        top: hole.bottom,
        ..area
    };
    let before = Area {
        left: area.left,
        right: hole.left,
        ..hole
    };
    let after = Area {
        left: hole.right,
        right: area.right,
        ..hole
    };
    fill(rows, band, above, placed, colour);
    fill(rows, band, below, placed, colour);
    fill(rows, band, before, placed, colour);
    fill(rows, band, after, placed, colour);
}
