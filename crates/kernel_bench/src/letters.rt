//! A letter of a TrueType font and one of a bitmap font, each from its font to its mask.

ghost use Rattle.std.specs.Prelude.{◌≡◌, ◌<◌, length, pos, IfOk};
ghost use Rattle.ass_num.specs.Limits.{IsRegionWithin, max_sample};
ghost use Rattle.bdf_font.specs.Ranges.{IsFont};
ghost use Rattle.outline_points.specs.Placing.{IsMatrix};

use crate::laps::Laps;
use crate::outlines::{font, font_of, matrix};
use crate::stop::Stop;
use crate::telling::tell;
use ass_num::{Items, Matrix, Mem, Region};
use bdf_font::Font;
use fixed_outline::runs_of;
use mask_cover::cover;
use sample_region::region_of;
use std::alloc::Global;
use std::time::Instant;

/// A TrueType font of one letter: a ring of 16 curves, 1,000 units high.
const RING: &str =
    "000100000007000000000000636d6170000000000000007c00000028676c796600000000000000a4000000486865616400000000000000ec\
     0000003668686561000000000000012200000024686d74780000000000000146000000066c6f6361000000000000014c000000066d617870\
     000000000000015200000006000000010003000a0000000c000c00000000001c00000000000000010000006f0000006f0000000100020000\
     000003e803e80007000f00000000200010002000062622061416323603e8fedbfe62fedb0125019e0125c8b0f8b0b0f8b00125fedb012501\
     9e0125fedb53b0b0f8b0b00000000000000000000000000000000000000003e8000000000000000000000000000000000000000000000000\
     000000000000000000000000000003e800000000000000000000000000000000000000000000000000000000000103e80000000000000000\
     0024000100000002";

fn ring_font(alloc: Global) -> Result<Font, Stop>
    ensures { IfOk result IsFont }
{
    match hex::decode(alloc, RING) {
        Ok(bytes) => font_of(alloc, Items::from_vec(bytes)),
        Err(_) => Err(Stop::OutOfMemory),
    }
}

/// A thousandth of a pixel for so many pixels: the scale at which a letter of 1,000 units is as high.
fn unit_matrix(pixels: u8) -> Matrix
    ensures matrix { IsMatrix result }
    ensures turn { result.turn ≡ pos 0 }
{
    let scale = 4_194 * i64::from(pixels);
    Matrix {
        ux: scale,
        uy: scale,
        italic: false,
        turn: 0,
    }
}

/// The region of a font's first letter.
fn letter_region(alloc: Global, font: &Font, matrix: &Matrix) -> Mem<Region>
    requires font { IsFont font.now }
    requires glyph { 0 < length font.now.glyphs }
    requires matrix { IsMatrix matrix.now }
    requires upright { matrix.now.turn ≡ pos 0 }
    ensures { IfOk result (λ r. IsRegionWithin max_sample r.top r.rows) }
{
    let outline = runs_of(alloc, font, 0, matrix, false, false, false)?;
    let region = region_of(alloc, &outline)?;
    Ok(region)
}

/// Times the mask of a font's first letter.
fn measure_letter(
    rt: &HostRuntime,
    name: &str,
    font: &Font,
    matrix: &Matrix,
    turns: u32,
) -> Result<(), Stop>
    requires font { IsFont font.now }
    requires glyph { 0 < length font.now.glyphs }
    requires matrix { IsMatrix matrix.now }
    requires upright { matrix.now.turn ≡ pos 0 }
{
    let mut laps = Laps::new();
    let mut count = 0;
    for _ in 0..turns {
        let began = Instant::now(rt)?;
        let region = letter_region(rt.alloc(), font, matrix)?;
        let mask = cover(rt.alloc(), &region, 3, 5)?;
        laps.add(began.elapsed(rt)?);
        count = mask.bytes().len();
    }
    tell(rt, "letter", name, count, "pixels", &laps)
}

/// Times letters that are so many pixels high: one of curves, and a solid one of 48 columns.
pub fn measure(rt: &HostRuntime, pixels: u32, turns: u32) -> Result<(), Stop> {
    if pixels > 255 {
        return Err(Stop::SizeOutOfRange);
    }
    let ring = ring_font(rt.alloc())?;
    let solid = font(rt.alloc(), pixels as u8)?;
    if ring.glyph_count() == 0 || solid.glyph_count() == 0 {
        return Err(Stop::SizeOutOfRange);
    }
    measure_letter(rt, "curves", &ring, &unit_matrix(pixels as u8), turns)?;
    measure_letter(rt, "bitmap", &solid, &matrix(0), turns)
}
