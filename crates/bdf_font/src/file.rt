//! Fonts from their files.

ghost use Rattle.std.specs.Prelude.{◌≡◌, ◌≢◌, ◌<◌, ◌≤◌, [], ◌∷◌, length, map, All, IfOk, Err};
ghost use Rattle.ass_num.specs.Limits.{max_file_bytes};
ghost use Rattle.bdf_font.specs.Files.{IsFontFileAnswer, file_refusal, outlines_answer};
ghost use Rattle.bdf_font.specs.Limits.{max_fonts};
ghost use Rattle.bdf_font.specs.Outlines.{outline_font};
ghost use Rattle.bdf_font.specs.Ranges.{IsFont};
ghost use Rattle.bdf_font.specs.declared.cause.FontFileRefusal.TheVariants.{Lines};
ghost use Rattle.sfnt_font.specs.Fonts.{sfnts_of};
ghost use Rattle.sfnt_font.specs.Ranges.{IsSfntFont};

use crate::cause::{FontFileRefusal, FontRefusal};
use crate::font::Font;
use crate::read::read_font;
use ass_num::{Items, Mem};
use sfnt_font::{SfntFont, SfntRefusal, is_sfnt, read_faces};
use std::alloc::Global;

/// The fonts that a file has: the one of its lines in BDF, or where its first four bytes are those of a TrueType file one
/// for each of its faces, in their order. They share the bytes, and none is copied. Out of memory is a refusal of the
/// lines in both.
pub fn read_fonts(alloc: Global, bytes: Items<u8>) -> Result<Items<Font>, FontFileRefusal>
    requires { length bytes ≤ max_file_bytes }
    ensures answer { result ≢ Err (Lines FontRefusal.OutOfMemory) → IsFontFileAnswer bytes result }
    ensures fonts { IfOk result (All IsFont) }
    ensures some { IfOk result (λ fonts. 0 < length fonts) }
    ensures few { IfOk result (λ fonts. length fonts ≤ max_fonts) }
{
    if is_sfnt(bytes.as_slice()) {
        return read_outlines(alloc, bytes);
    }
    match read_font(alloc, bytes.as_slice()) {
        Ok(font) => Ok(only_font(alloc, font)?),
        Err(refusal) => Err(FontFileRefusal::Lines(refusal)),
    }
}

/// A list of one font.
fn only_font(alloc: Global, font: Font) -> Mem<Items<Font>>
    ensures { IfOk result (λ fonts. fonts ≡ font ∷ []) }
{
    let mut fonts = Items::with_capacity(alloc, 1)?;
    fonts.push(font)?;
    Ok(fonts)
}

/// The fonts of a TrueType file.
fn read_outlines(alloc: Global, bytes: Items<u8>) -> Result<Items<Font>, FontFileRefusal>
    requires { length bytes ≤ max_file_bytes }
    ensures answer { result ≢ Err (Lines FontRefusal.OutOfMemory) → result ≡ outlines_answer (sfnts_of bytes) }
    ensures fonts { IfOk result (All IsFont) }
    ensures some { IfOk result (λ fonts. 0 < length fonts) }
    ensures few { IfOk result (λ fonts. length fonts ≤ max_fonts) }
{
    match read_faces(alloc, bytes) {
        Ok(faces) => Ok(outline_fonts(alloc, faces)?),
        Err(refusal) => Err(file_refusal(refusal)),
    }
}

/// The fonts that faces are.
fn outline_fonts(alloc: Global, faces: Items<SfntFont>) -> Mem<Items<Font>>
    requires { All IsSfntFont faces }
    ensures { IfOk result (λ fonts. fonts ≡ map outline_font faces) }
{
    let mut fonts = Items::with_capacity(alloc, faces.len())?;
    for face in faces.into_vec() {
        fonts.push(Font::of_outlines(alloc, face)?)?;
    }
    Ok(fonts)
}

/// The refusal of a file whose bytes are refused so.
fn file_refusal(refusal: SfntRefusal) -> FontFileRefusal
    ensures { result ≡ file_refusal refusal }
{
    match refusal {
        SfntRefusal::OutOfMemory => FontFileRefusal::Lines(FontRefusal::OutOfMemory),
        _ => FontFileRefusal::Bytes(refusal),
    }
}
