//! Fonts, and each way of leaving the format. A line of a font ends at a slash or at a carriage return, written `\r/`.

use crate::telling::shown;
use ass_num::{Items, Mem};
use bdf_font::{Font, Pixels, glyph, read_font};
use std::alloc::Global;

/// The advance and the bitmap of the first glyph.
fn first_glyph(font: &Font) -> Option<(i32, &Pixels)> {
    if font.glyph_count() == 0 {
        return None;
    }
    match font.pixels_at(0) {
        Some(pixels) => Some((font.advance_at(0), pixels)),
        None => None,
    }
}

/// The font's name, ascent, descent and default code, the first glyph, and the places of `A` and `B`.
fn font_told(alloc: Global, font: &Font) -> Mem<String> {
    let name = str::from_utf8(font.name()).unwrap_or("?");
    let head = (name, font.ascent(), font.descent(), font.default_char());
    let places = (glyph(font, 'A'), glyph(font, 'B'));
    shown(alloc, &(head, first_glyph(font), places))
}

/// What a font is read as, or why it is refused.
pub fn told(alloc: Global, text: &str) -> Mem<String> {
    let text = text.replace(alloc, "/", "\n")?;
    if text.as_str().len() > 10_000 {
        return shown(alloc, &"too long");
    }
    match read_font(alloc, text.as_str().as_bytes()) {
        Ok(font) => font_told(alloc, &font),
        Err(refusal) => shown(alloc, &refusal),
    }
}
