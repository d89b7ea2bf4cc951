//! The glyphs of a font, and its codes.

ghost use Rattle.sfnt_font.specs.Ranges.{IsSfntFont};

use crate::telling::number;
use ass_num::Mem;
use outline_points::GlyphPoint;
use sfnt_font::SfntFont;
use sfnt_glyphs::{advance_of, contours_of, is_blank};
use std::alloc::Global;

/// The last code of a character.
const MAX_CODE: u32 = 1_114_111;

/// A point; `~` is one off the contour.
fn point_told(alloc: Global, point: &GlyphPoint) -> Mem<String> {
    let x = point.x;
    let y = point.y;
    let mark = if point.is_on { "" } else { "~" };
    Ok(format!(in alloc; " {x},{y}{mark}")?)
}

/// A contour; each begins behind a bar.
fn contour_told(alloc: Global, points: &[GlyphPoint]) -> Mem<String> {
    let mut text = String::from_str(alloc, " |")?;
    for point in points {
        text.push_str(point_told(alloc, point)?.as_str())?;
    }
    Ok(text)
}

/// The advance of a glyph, whether it is blank, and its contours.
pub fn glyph_told(alloc: Global, font: &SfntFont, g: u16) -> Mem<String>
    requires { IsSfntFont font.now }
{
    let advance = advance_of(font, g);
    let blank = if is_blank(font, g) { " blank" } else { "" };
    let mut text = format!(in alloc; "{advance}{blank}")?;
    let contours = contours_of(alloc, font, g)?;
    for k in 0..contours.len() {
        text.push_str(contour_told(alloc, contours.get(k))?.as_str())?;
    }
    Ok(text)
}

/// The glyph of a code, and its place in the list.
fn code_told(alloc: Global, font: &SfntFont, code: u32) -> Mem<String>
    requires { IsSfntFont font.now }
{
    let code = code.min(MAX_CODE);
    let glyph = font.glyph_number(code);
    match font.place_of(code) {
        Some(place) => Ok(format!(in alloc; " {glyph}@{place}")?),
        None => Ok(format!(in alloc; " {glyph}@-")?),
    }
}

/// The glyphs of codes, and their places.
pub fn codes_told(alloc: Global, font: &SfntFont, codes: &str) -> Mem<String>
    requires { IsSfntFont font.now }
{
    let mut text = String::new(alloc);
    for word in codes.split_whitespace() {
        text.push_str(code_told(alloc, font, number(word))?.as_str())?;
    }
    Ok(text)
}

/// The codes at places of the list, and their glyphs.
pub fn places_told(alloc: Global, font: &SfntFont, places: &str) -> Mem<String>
    requires { IsSfntFont font.now }
{
    let mut text = String::new(alloc);
    for word in places.split_whitespace() {
        let place = number(word);
        let code = font.code_at(place);
        let glyph = font.glyph_at(place);
        text.push_str(format!(in alloc; " {code}={glyph}")?.as_str())?;
    }
    Ok(text)
}
