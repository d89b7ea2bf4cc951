//! Fonts that scripts hold, and where their data leave the format.

use crate::telling::{lines, shown};
use ass_num::Mem;
use script_fonts::{ScriptFont, read_script_fonts};
use std::alloc::Global;

/// The names and the bytes of fonts.
fn fonts_told(alloc: Global, fonts: &[ScriptFont]) -> Mem<String> {
    let mut told = Vec::new(alloc);
    for font in fonts {
        let name = str::from_utf8(font.name.as_slice()).unwrap_or("?");
        told.push((name, font.bytes.as_slice()))?;
    }
    shown(alloc, &told)
}

/// What a script holds, or why its fonts are refused.
pub fn told(alloc: Global, text: &str) -> Mem<String> {
    let text = lines(alloc, text)?;
    if text.as_str().len() > 10_000 {
        return shown(alloc, &"too long");
    }
    match read_script_fonts(alloc, text.as_str().as_bytes()) {
        Ok(fonts) => fonts_told(alloc, fonts.as_slice()),
        Err(refusal) => shown(alloc, &refusal),
    }
}
