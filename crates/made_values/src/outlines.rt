//! The regions of outlines.

ghost use Rattle.std.specs.Prelude.{◌≡◌, ℕ, ℤ, ◌<◌, List, length, slice_index, IfOk};
ghost use Rattle.ass_num.specs.Limits.{IsOutline, IsRegionWithin};
ghost use Rattle.ass_num.specs.Winding.{winding};
ghost use Rattle.mask_keys.specs.Keys.{IsValidOutline};
ghost use Rattle.mask_keys.specs.Outlines.{IsFontSet, glyph_counts, rings_of};
ghost use Rattle.sample_region.specs.Limits.{max_inside};
ghost use Rattle.mask_keys.specs.Values.{outline_value};

use ass_num::{Mem, Outline, Region};
use bdf_font::FontSet;
use cancelled_edges::cancelled;
use fixed_outline::{box_outline, outline_of_path, quads_of, runs_of};
use mask_keys::OutlineKey;
use sample_region::region_of;
use std::alloc::Global;

/// The vertical scale at which a bitmap's pixel is two pixels high. From there on, cancelling edges costs less than the rows that they cross.
const COARSE_SCALE: i64 = 8_388_608;

/// The outline of a key.
fn outline_of(alloc: Global, fonts: &FontSet, key: &OutlineKey) -> Mem<Outline>
    requires fonts { IsFontSet fonts.now.fonts }
    requires key { IsValidOutline (glyph_counts fonts.now.fonts) key.now }
    ensures rings { IfOk result (λ o. o.rings ≡ rings_of fonts.now.fonts key.now) }
    ensures within { IfOk result (λ o. IsOutline o.rings) }
{
    match key {
        OutlineKey::Glyph {
            font,
            glyph,
            m,
            bold,
            underline,
            strikeout,
        } => {
            let font = &fonts.fonts.as_slice()[*font as usize];
            quads_of(alloc, font, *glyph, m, *bold, *underline, *strikeout)
        }
        OutlineKey::Drawing { path, m, shift } => outline_of_path(alloc, path, m, *shift),
        OutlineKey::Box { w, h, turn } => box_outline(alloc, *w, *h, *turn),
    }
}

/// Whether the edges of the key's outline are better cancelled: those of a glyph whose pixels are large.
fn is_coarse(key: &OutlineKey) -> bool {
    match key {
        OutlineKey::Glyph { m, .. } => m.uy >= COARSE_SCALE,
        OutlineKey::Drawing { .. } => false,
        OutlineKey::Box { .. } => false,
    }
}

/// An outline with the same winding numbers, by which the region costs less.
fn simpler(alloc: Global, outline: Outline, coarse: bool) -> Mem<Outline>
    requires { IsOutline outline.rings }
    ensures winding { IfOk result (λ o. (i j : ℤ) → winding o.rings i j ≡ winding outline.rings i j) }
    ensures within { IfOk result (λ o. IsOutline o.rings) }
{
    if coarse {
        return cancelled(alloc, &outline);
    }
    Ok(outline)
}

/// An outline with the winding numbers of a key's rings. A glyph that isn't turned needs no quads.
fn winding_outline(alloc: Global, fonts: &FontSet, key: &OutlineKey) -> Mem<Outline>
    requires fonts { IsFontSet fonts.now.fonts }
    requires key { IsValidOutline (glyph_counts fonts.now.fonts) key.now }
    ensures winding { IfOk result (λ o. (i j : ℤ) → winding o.rings i j ≡ winding (rings_of fonts.now.fonts key.now) i j) }
    ensures within { IfOk result (λ o. IsOutline o.rings) }
{
    if let OutlineKey::Glyph {
        font,
        glyph,
        m,
        bold,
        underline,
        strikeout,
    } = key
    {
        if m.turn == 0 {
            let font = &fonts.fonts.as_slice()[*font as usize];
            return runs_of(alloc, font, *glyph, m, *bold, *underline, *strikeout);
        }
    }
    let outline = outline_of(alloc, fonts, key)?;
    simpler(alloc, outline, is_coarse(key))
}

/// The region of an outline's key: the samples inside the glyph, the drawing or the box.
pub fn made_outline(alloc: Global, fonts: &FontSet, key: &OutlineKey) -> Mem<Region>
    requires fonts { IsFontSet fonts.now.fonts }
    requires key { IsValidOutline (glyph_counts fonts.now.fonts) key.now }
    ensures value { IfOk result (λ r. r ≡ outline_value fonts.now.fonts key.now) }
    ensures within { IfOk result (λ r. IsRegionWithin max_inside r.top r.rows) }
{
    let outline = winding_outline(alloc, fonts, key)?;
    region_of(alloc, &outline)
}
