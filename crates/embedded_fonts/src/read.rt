//! The fonts that a script holds.

ghost use Rattle.std.specs.Prelude.{◌≡◌, ◌≢◌, ◌≤◌, ◌++◌, length, All, IfOk, Ok, Err};
ghost use Rattle.ass_num.specs.Limits.{max_file_bytes};
ghost use Rattle.bdf_font.specs.Limits.{max_fonts};
ghost use Rattle.bdf_font.specs.Ranges.{IsFont};
ghost use Rattle.script_fonts.specs.declared.font.ScriptFont.{ScriptFont};
ghost use Rattle.script_fonts.specs.declared.refusal.ScriptFontsRefusal.TheVariants.{OutOfMemory as memory_refusal};
ghost use Rattle.embedded_fonts.specs.Embedded.{AreHeldFonts, IsEmbeddedAnswer, IsFileAnswer, at_most_a_set};
ghost use Rattle.embedded_fonts.specs.declared.refusal.EmbeddedRefusal.TheVariants.{Data};

use crate::refusal::EmbeddedRefusal;
use ass_num::Items;
use bdf_font::{Font, FontFileRefusal, FontRefusal, read_fonts};
use script_fonts::{ScriptFont, ScriptFontsRefusal, fonts_fit_their_text, read_script_fonts};
use std::alloc::Global;

/// The most fonts of a set.
const MAX_FONTS: usize = 64;

/// The fonts that the script of these bytes holds, in its order: all faces of each file. `Data` names the line of the
/// first data that leave their format; else `Font` names the first file that is none of fonts, by its place among those
/// of the script; else `TooMany` comes where the fonts are more than 64.
pub fn read_embedded_fonts(alloc: Global, script: &[u8]) -> Result<Items<Font>, EmbeddedRefusal>
    requires { length script.now ≤ max_file_bytes }
    ensures answer { IsEmbeddedAnswer script.now result }
    ensures fonts { IfOk result (All IsFont) }
    ensures few { IfOk result (λ fonts. length fonts ≤ max_fonts) }
{
    fonts_fit_their_text();
    match read_script_fonts(alloc, script) {
        Ok(files) => few_fonts(fonts_held(alloc, files)),
        Err(refusal) => Err(EmbeddedRefusal::Data(refusal)),
    }
}

/// The fonts, unless they are too many for a set.
fn few_fonts(fonts: Result<Items<Font>, EmbeddedRefusal>) -> Result<Items<Font>, EmbeddedRefusal>
    ensures { result ≡ at_most_a_set fonts }
{
    match fonts {
        Ok(fonts) => {
            if fonts.len() > MAX_FONTS {
                Err(EmbeddedRefusal::TooMany)
            } else {
                Ok(fonts)
            }
        }
        Err(refusal) => Err(refusal),
    }
}

/// The fonts of the files that a script holds.
fn fonts_held(alloc: Global, files: Items<ScriptFont>) -> Result<Items<Font>, EmbeddedRefusal>
    requires { All (λ (file : ScriptFont). length file.bytes ≤ max_file_bytes) files }
    ensures answer { result ≢ Err (Data memory_refusal) → AreHeldFonts 0 files result }
    ensures fonts { IfOk result (All IsFont) }
{
    let mut fonts = Vec::with_capacity(alloc, files.len())?;
    let mut place = 0;
    for file in files.into_vec() {
        let more = fonts_of_file(alloc, place, file.bytes)?;
        fonts.append(&mut more.into_vec())?;
        place += 1;
    }
    Ok(Items::from_vec(fonts))
}

/// The fonts of the file at a place among those of a script.
fn fonts_of_file(
    alloc: Global,
    place: usize,
    bytes: Items<u8>,
) -> Result<Items<Font>, EmbeddedRefusal>
    requires { length bytes ≤ max_file_bytes }
    ensures answer { IsFileAnswer place bytes result }
    ensures fonts { IfOk result (All IsFont) }
{
    match read_fonts(alloc, bytes) {
        Ok(fonts) => Ok(fonts),
        Err(FontFileRefusal::Lines(FontRefusal::OutOfMemory)) => {
            Err(EmbeddedRefusal::Data(ScriptFontsRefusal::OutOfMemory))
        }
        Err(refusal) => Err(EmbeddedRefusal::Font(place, refusal)),
    }
}
