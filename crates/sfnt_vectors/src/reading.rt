//! Fonts from the bytes of their files.

ghost use Rattle.std.specs.Prelude.{IfOk};
ghost use Rattle.sfnt_font.specs.Ranges.{IsSfntFont};

use crate::telling::shown;
use ass_num::{FlatLists, Items, Mem};
use sfnt_font::{FileBytes, SfntFont, face_count, read_sfnt};
use std::alloc::Global;

/// The most bytes of a file here.
pub const MOST_BYTES: usize = 1_000_000;

/// The font of a face, or why there is none.
pub fn font_of(alloc: Global, bytes: &[u8], face: u32) -> Mem<Result<SfntFont, String>>
    ensures { IfOk result (λ read. IfOk read IsSfntFont) }
{
    if bytes.len() > MOST_BYTES {
        return Ok(Err(shown(alloc, &"a long file")?));
    }
    let count = match face_count(bytes) {
        Ok(count) => count,
        Err(refusal) => return Ok(Err(shown(alloc, &refusal)?)),
    };
    if face >= count {
        return Ok(Err(shown(alloc, &"no face")?));
    }
    let file = FileBytes::new(alloc, Items::from_vec(Vec::from_slice(alloc, bytes)?))?;
    match read_sfnt(alloc, &file, face) {
        Ok(font) => Ok(Ok(font)),
        Err(refusal) => Ok(Err(shown(alloc, &refusal)?)),
    }
}

/// Names, each in brackets.
fn names_told(alloc: Global, names: &FlatLists<u8>) -> Mem<String> {
    let mut told = String::new(alloc);
    for k in 0..names.len() {
        let name = str::from_utf8(names.get(k)).unwrap_or("?");
        told.push_str(format!(in alloc; "[{name}]")?.as_str())?;
    }
    Ok(told)
}

/// The families of a font and its full names, how many glyphs its list has, and its numbers.
fn font_told(alloc: Global, font: &SfntFont) -> Mem<String>
    requires { IsSfntFont font.now }
{
    let families = names_told(alloc, &font.names().families)?;
    let full_names = names_told(alloc, &font.names().full_names)?;
    let count = font.glyph_count();
    let numbers = font.numbers();
    Ok(format!(in alloc; "{families}/{full_names} {count} {numbers:?}")?)
}

/// What a face is read as.
pub fn read_told(alloc: Global, bytes: &[u8], face: u32) -> Mem<String> {
    match font_of(alloc, bytes, face)? {
        Ok(font) => font_told(alloc, &font),
        Err(text) => Ok(text),
    }
}
