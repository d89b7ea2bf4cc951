//! TrueType fonts as lists of glyphs, which are read when they are asked for.

ghost use Rattle.std.specs.Prelude.{◌≡◌, ◌<◌, [], length, pos, true, IfOk, slice_get};
ghost use Rattle.std.specs.Option.{option_map_or};
ghost use Rattle.bdf_font.specs.Fonts.{glyph_of};
ghost use Rattle.bdf_font.specs.Outlines.{outline_font, outline_glyphs};
ghost use Rattle.bdf_font.specs.Pixels.{contours_in, strokes_in};
ghost use Rattle.bdf_font.specs.Sets.{is_missing_at};
ghost use Rattle.bdf_font.specs.declared.glyphs.FontGlyph.{FontGlyph};
ghost use Rattle.sfnt_font.specs.Ranges.{IsSfntFont};

use ass_num::{FlatLists, Mem};
use cff_font::{cff_contours, cff_is_blank};
use outline_points::{GlyphPoint, Stroke};
use sfnt_font::{Outlines, SfntFont};
use sfnt_glyphs::{advance_of, contours_of, is_blank};
use std::alloc::Global;

/// The code of the glyph of missing characters.
pub const MISSING_CODE: i64 = -2;

/// How far the glyph at a place advances the pen.
pub fn outline_advance(font: &SfntFont, place: u32) -> i32
    requires font { IsSfntFont font.now }
    requires place { place < length (outline_glyphs font.now) }
    ensures { result ≡ option_map_or (λ (glyph : FontGlyph). glyph.advance) (slice_get (outline_glyphs font.now) place) (pos 0) }
{
    i32::from(advance_of(font, font.glyph_at(place)))
}

/// Whether the glyph at a place has no bytes, or draws nothing at sight.
pub fn outline_is_blank(font: &SfntFont, place: u32) -> bool
    requires font { IsSfntFont font.now }
    requires place { place < length (outline_glyphs font.now) }
    ensures { result ≡ option_map_or (λ (glyph : FontGlyph). glyph.blank) (slice_get (outline_glyphs font.now) place) true }
{
    let g = font.glyph_at(place);
    match &font.tables().outlines {
        Outlines::TrueTypeOutlines(_, _) => is_blank(font, g),
        Outlines::PostScriptOutlines(cff) => cff_is_blank(font.bytes(), cff, g),
    }
}

/// Whether the glyph at a place is drawn for missing characters.
pub fn outline_is_missing(font: &SfntFont, place: u32) -> bool
    requires font { IsSfntFont font.now }
    requires place { place < length (outline_glyphs font.now) }
    ensures { result ≡ is_missing_at (outline_glyphs font.now) place }
{
    font.glyph_at(place) == 0
}

/// The contours of the glyph at a place.
pub fn outline_contours(alloc: Global, font: &SfntFont, place: u32) -> Mem<FlatLists<GlyphPoint>>
    requires font { IsSfntFont font.now }
    requires place { place < length (outline_glyphs font.now) }
    ensures { IfOk result (λ contours. contours
        ≡ option_map_or (λ (glyph : FontGlyph). contours_in glyph.shape) (slice_get (outline_glyphs font.now) place) []) }
{
    match &font.tables().outlines {
        Outlines::TrueTypeOutlines(_, _) => contours_of(alloc, font, font.glyph_at(place)),
        Outlines::PostScriptOutlines(_) => Ok(FlatLists::new(alloc)),
    }
}

/// The contours of lines and cubic curves of the glyph at a place.
pub fn outline_strokes(alloc: Global, font: &SfntFont, place: u32) -> Mem<FlatLists<Stroke>>
    requires font { IsSfntFont font.now }
    requires place { place < length (outline_glyphs font.now) }
    ensures { IfOk result (λ contours. contours
        ≡ option_map_or (λ (glyph : FontGlyph). strokes_in glyph.shape) (slice_get (outline_glyphs font.now) place) []) }
{
    match &font.tables().outlines {
        Outlines::TrueTypeOutlines(_, _) => Ok(FlatLists::new(alloc)),
        Outlines::PostScriptOutlines(cff) => {
            let units = font.numbers().units;
            cff_contours(alloc, font.bytes(), cff, units, font.glyph_at(place))
        }
    }
}

/// The place of a character's glyph: of its code, or else the last one.
pub fn outline_place(font: &SfntFont, c: char) -> Option<u32>
    requires { IsSfntFont font.now }
    ensures { result ≡ glyph_of (outline_font font.now) c }
{
    match font.place_of(u32::from(c)) {
        Some(place) => Some(place),
        None => Some(font.glyph_count() - 1),
    }
}
