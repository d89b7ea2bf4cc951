//! Fonts from their texts.

ghost use Rattle.std.specs.Prelude.{◌≡◌, ◌≢◌, ◌⊎◌, ◌≤◌, length, IfOk, Result, Err};
ghost use Rattle.ass_num.specs.Limits.{max_file_bytes};
ghost use Rattle.bdf_font.specs.Ranges.{IsFont, IsFontReading, Keeps};
ghost use Rattle.bdf_font.specs.Fonts.{FontValue};
ghost use Rattle.bdf_font.specs.Grammar.{IsFontAnswer};
ghost use Rattle.bdf_font.specs.Lines.{text_lines};
ghost use Rattle.bdf_font.specs.Steps.{Answered};

use crate::cause::{FontCause, FontRefusal, Stop};
use crate::font::Font;
use crate::reading::{MAX_GLYPHS, Reading};
use bstr::ByteSlice;
use std::alloc::Global;

/// The font that a text in BDF spells. `BadFont` names the first line, from 1, at which the text leaves the format,
/// and how; `TooLarge` comes where one glyph more than 131,072 begins.
pub fn read_font(alloc: Global, bytes: &[u8]) -> Result<Font, FontRefusal>
    requires { length bytes.now ≤ max_file_bytes }
    // What is answered is the answer of the format, unless memory ran out.
    ensures answer { result ≢ Err FontRefusal.OutOfMemory → IsFontAnswer (text_lines bytes.now) result }
    ensures only { (answer : Result FontValue FontRefusal) → IsFontAnswer (text_lines bytes.now) answer → (result ≡ answer)
        ⊎ (result ≡ Err FontRefusal.OutOfMemory) }

    ensures font { IfOk result IsFont }
{
    let mut reading = Reading::new(alloc);
    let mut number = 1;
    for line in bytes.lines() {
        match reading.line(alloc, line) {
            Ok(()) => number += 1,
            Err(stop) => return answer(alloc, reading, number, stop),
        }
    }
    Err(FontRefusal::BadFont(number, FontCause::NoEnd))
}

/// The answer where a line ends the walk.
fn answer(alloc: Global, reading: Reading, number: usize, stop: Stop) -> Result<Font, FontRefusal>
    requires { Keeps (Err stop) (IsFontReading reading) }
    ensures answer { Answered number stop reading result }
    ensures font { IfOk result IsFont }
{
    match stop {
        Stop::End => match reading.header.made(alloc, reading.glyphs) {
            Ok(font) => Ok(font),
            Err(_) => Err(FontRefusal::OutOfMemory),
        },
        Stop::Fault(cause) => Err(FontRefusal::BadFont(number, cause)),
        Stop::Full => Err(FontRefusal::TooLarge(MAX_GLYPHS)),
        Stop::OutOfMemory => Err(FontRefusal::OutOfMemory),
    }
}
