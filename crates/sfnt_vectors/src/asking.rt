//! What rows ask of the bytes of a file.

ghost use Rattle.sfnt_font.specs.Ranges.{IsSfntFont};

use crate::glyphs::{codes_told, glyph_told, places_told};
use crate::reading::{font_of, read_told};
use crate::telling::{number, shown};
use ass_num::Mem;
use sfnt_font::SfntFont;
use std::alloc::Global;

/// What a row asks of a font.
fn of_font(alloc: Global, font: &SfntFont, kind: &str, rest: &str) -> Mem<String>
    requires { IsSfntFont font.now }
{
    match kind {
        "glyph" => glyph_told(alloc, font, number(rest).min(65_535) as u16),
        "codes" => codes_told(alloc, font, rest),
        "places" => places_told(alloc, font, rest),
        _ => shown(alloc, &"no question"),
    }
}

/// What a row asks of a file, or of its first face.
pub fn answer(alloc: Global, bytes: &[u8], kind: &str, rest: &str) -> Mem<String> {
    if kind == "face" {
        return read_told(alloc, bytes, number(rest));
    }
    match font_of(alloc, bytes, 0)? {
        Ok(font) => of_font(alloc, &font, kind, rest),
        Err(text) => Ok(text),
    }
}

/// What a file is read as that has other bytes from a place on.
pub fn changed(alloc: Global, bytes: &[u8], rest: &str) -> Mem<String> {
    let (place, text) = rest.split_once(' ').unwrap_or((rest, ""));
    let place = (number(place) as usize).min(bytes.len());
    let (front, back) = bytes.split_at(place);
    let mut whole = Vec::from_slice(alloc, front)?;
    if let Ok(others) = hex::decode(alloc, text) {
        let behind = others.len().min(back.len());
        whole.extend_from_slice(others.as_slice())?;
        whole.extend_from_slice(&back[behind..])?;
    }
    read_told(alloc, whole.as_slice(), 0)
}

/// What the first bytes of a file are read as.
pub fn shortened(alloc: Global, bytes: &[u8], count: &str) -> Mem<String> {
    let count = (number(count) as usize).min(bytes.len());
    read_told(alloc, &bytes[..count], 0)
}
