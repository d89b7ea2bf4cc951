//! What rows ask of sets of fonts.

ghost use Rattle.std.specs.Prelude.{◌≤◌, length};
ghost use Rattle.bdf_font.specs.Limits.{max_fonts};

use crate::reading::MOST_BYTES;
use crate::telling::{number, shown};
use ass_num::{Items, Mem};
use bdf_font::{Font, FontSet, find_font, read_fonts, set_glyph};
use std::alloc::Global;

/// The most fonts of a set.
const MAX_FONTS: usize = 64;

/// No fonts.
pub fn no_fonts(alloc: Global) -> FontSet {
    FontSet {
        fonts: Items::new(alloc),
    }
}

/// Puts fonts behind those of a set, as long as there is room, and tells how many there are.
fn joined(alloc: Global, set: &mut FontSet, fonts: Items<Font>) -> Mem<String> {
    for font in fonts.into_vec() {
        if set.fonts.len() < MAX_FONTS {
            set.fonts.push(font)?;
        }
    }
    shown(alloc, &set.fonts.len())
}

/// Adds the fonts of a file to a set, and tells how many there are, or why there are none.
pub fn added(alloc: Global, set: &mut FontSet, bytes: &[u8]) -> Mem<String> {
    if bytes.len() > MOST_BYTES {
        return shown(alloc, &"a long file");
    }
    match read_fonts(alloc, Items::from_vec(Vec::from_slice(alloc, bytes)?)) {
        Ok(fonts) => joined(alloc, set, fonts),
        Err(refusal) => shown(alloc, &refusal),
    }
}

/// The place of the font of a name. Before it stand `b` for bold, `i` for italic, `bi` for both, or `-`.
fn found(alloc: Global, set: &FontSet, rest: &str) -> Mem<String>
    requires { length set.now.fonts ≤ max_fonts }
{
    let (style, name) = rest.split_once(' ').unwrap_or((rest, ""));
    let place = find_font(set, name, style.contains('b'), style.contains('i'));
    shown(alloc, &place)
}

/// Where the glyph of a code is in a set, asked of the font with this number.
fn glyph_told(alloc: Global, set: &FontSet, font: u32, code: &str) -> Mem<String>
    requires { length set.now.fonts ≤ max_fonts }
{
    let Some(c) = char::from_u32(number(code)) else {
        return shown(alloc, &"no character");
    };
    if font as usize >= set.fonts.len() {
        return shown(alloc, &"no font");
    }
    match set_glyph(set, font, c) {
        Some(found) => {
            let number = found.font;
            let glyph = found.glyph;
            Ok(format!(in alloc; " {number}:{glyph}")?)
        }
        None => Ok(format!(in alloc; " -")?),
    }
}

/// The same of codes, behind the number of the font.
fn glyphs_told(alloc: Global, set: &FontSet, rest: &str) -> Mem<String>
    requires { length set.now.fonts ≤ max_fonts }
{
    let (font, codes) = rest.split_once(' ').unwrap_or((rest, ""));
    let mut text = String::new(alloc);
    for code in codes.split_whitespace() {
        text.push_str(glyph_told(alloc, set, number(font), code)?.as_str())?;
    }
    Ok(text)
}

/// What a row asks of a set.
pub fn of_set(alloc: Global, set: &FontSet, kind: &str, rest: &str) -> Mem<String> {
    if set.fonts.len() > MAX_FONTS {
        return shown(alloc, &"many fonts");
    }
    match kind {
        "find" => found(alloc, set, rest),
        _ => glyphs_told(alloc, set, rest),
    }
}
