//! Where the bytes of glyphs are.

ghost use Rattle.std.specs.Prelude.{◌≡◌, ◌≤◌, length, IfSome, ◌+◌};
ghost use Rattle.sfnt_glyphs.specs.Glyphs.{wide_place, narrow_place, glyph_place, held_stretch, stretch_between, IsStretch, glyph_stretch, is_blank_glyph};
ghost use Rattle.ass_num.specs.Limits.{max_file_bytes};
ghost use Rattle.sfnt_font.specs.Directory.{IsTableIn};
ghost use Rattle.sfnt_font.specs.Ranges.{IsSfntFont};

use font_bytes::{u16_at, u32_at};
use sfnt_font::{Outlines, SfntFont, Table};

/// The bytes from one place up to another.
#[derive(Clone, Copy)]
pub struct Stretch {
    pub from: usize,
    pub to: usize,
}

/// The place of glyph g, where places have four bytes.
fn wide_place(bytes: &[u8], loca: Table, g: usize) -> Option<usize>
    requires loca { IsTableIn bytes.now loca }
    requires short { length bytes.now ≤ max_file_bytes }
    requires g { g ≤ 65536 }
    ensures { result ≡ wide_place bytes.now loca g }
{
    if loca.size < 4 * g + 4 {
        return None;
    }
    Some(u32_at(bytes, loca.place + 4 * g) as usize)
}

/// The place of glyph g, where halves of places are given by two bytes.
fn narrow_place(bytes: &[u8], loca: Table, g: usize) -> Option<usize>
    requires loca { IsTableIn bytes.now loca }
    requires short { length bytes.now ≤ max_file_bytes }
    requires g { g ≤ 65536 }
    ensures { result ≡ narrow_place bytes.now loca g }
{
    if loca.size < 2 * g + 2 {
        return None;
    }
    Some(2 * usize::from(u16_at(bytes, loca.place + 2 * g)))
}

fn held_stretch(glyf: Table, from: usize, to: usize) -> Option<Stretch>
    requires glyf { glyf.place + glyf.size ≤ max_file_bytes }
    requires from { from ≤ glyf.size }
    requires to { to ≤ glyf.size }
    ensures value { result ≡ held_stretch glyf from to }
    ensures within { IfSome result IsStretch }
{
    if from < to {
        return Some(Stretch {
            from: glyf.place + from,
            to: glyf.place + to,
        });
    }
    None
}

/// What lies between two places of a table, both held at its size.
fn stretch_between(glyf: Table, from: Option<usize>, to: Option<usize>) -> Option<Stretch>
    requires glyf { glyf.place + glyf.size ≤ max_file_bytes }
    ensures value { result ≡ stretch_between glyf from to }
    ensures within { IfSome result IsStretch }
{
    match from {
        None => None,
        Some(from) => match to {
            None => None,
            Some(to) => held_stretch(glyf, from.min(glyf.size), to.min(glyf.size)),
        },
    }
}

/// The place of glyph g in `glyf`.
fn glyph_place(font: &SfntFont, loca: Table, g: usize) -> Option<usize>
    requires font { IsSfntFont font.now }
    requires loca { IsTableIn font.now.bytes loca }
    requires g { g ≤ 65536 }
    ensures { result ≡ glyph_place font.now loca g }
{
    if font.numbers().wide_places {
        return wide_place(font.bytes(), loca, g);
    }
    narrow_place(font.bytes(), loca, g)
}

/// The bytes of glyph g.
pub fn glyph_stretch(font: &SfntFont, g: u16) -> Option<Stretch>
    requires { IsSfntFont font.now }
    ensures value { result ≡ glyph_stretch font.now g }
    ensures within { IfSome result IsStretch }
{
    let g = usize::from(g);
    match font.tables().outlines {
        Outlines::TrueTypeOutlines(loca, glyf) => {
            stretch_between(
                glyf,
                glyph_place(font, loca, g),
                glyph_place(font, loca, g + 1),
            )
        }
        Outlines::PostScriptOutlines(_) => None,
    }
}

/// Whether a glyph has no bytes.
pub fn is_blank(font: &SfntFont, g: u16) -> bool
    requires { IsSfntFont font.now }
    ensures { result ≡ is_blank_glyph font.now g }
{
    glyph_stretch(font, g).is_none()
}
