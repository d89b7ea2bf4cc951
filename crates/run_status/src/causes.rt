//! The statuses of what can't be read.

ghost use Rattle.std.specs.Prelude.{◌≡◌};
ghost use Rattle.run_status.specs.Causes.{bytes_status, data_status, embedded_status, font_status, lines_status, script_status};

use crate::{BadScript, FontFault, FontPlace, MAX_FONTS, Status, What};
use ass_script::ScriptRefusal;
use bdf_font::{FontFileRefusal, FontRefusal};
use embedded_fonts::EmbeddedRefusal;
use script_fonts::ScriptFontsRefusal;
use sfnt_font::SfntRefusal;

/// The status of a script that is refused.
pub fn script_status(refusal: ScriptRefusal) -> Status
    ensures { result ≡ script_status refusal }
{
    match refusal {
        ScriptRefusal::NotUtf8(n) => Status::BadScript(BadScript::NotUtf8(n)),
        ScriptRefusal::NoEvents => Status::BadScript(BadScript::NoEvents),
        ScriptRefusal::TooManyLines(limit) => Status::TooLarge(What::Lines, limit),
        ScriptRefusal::TooManyStyles(limit) => Status::TooLarge(What::Styles, limit),
        ScriptRefusal::OutOfMemory => Status::OutOfMemory,
    }
}

/// The status of lines that are refused as a font.
fn lines_status(place: FontPlace, refusal: FontRefusal) -> Status
    ensures { result ≡ lines_status place refusal }
{
    match refusal {
        FontRefusal::BadFont(line, cause) => Status::BadFont(place, FontFault::Line(line, cause)),
        FontRefusal::TooLarge(limit) => Status::TooLarge(What::Glyphs, limit),
        FontRefusal::OutOfMemory => Status::OutOfMemory,
    }
}

/// The status of the bytes of a TrueType font that are refused.
fn bytes_status(place: FontPlace, refusal: SfntRefusal) -> Status
    ensures { result ≡ bytes_status place refusal }
{
    match refusal {
        SfntRefusal::BadFont(byte, cause) => Status::BadFont(place, FontFault::Byte(byte, cause)),
        SfntRefusal::TooLarge(limit) => Status::TooLarge(What::Faces, limit),
        SfntRefusal::OutOfMemory => Status::OutOfMemory,
    }
}

/// The status of a font's file that is refused.
pub fn font_status(place: FontPlace, refusal: FontFileRefusal) -> Status
    ensures { result ≡ font_status place refusal }
{
    match refusal {
        FontFileRefusal::Lines(refusal) => lines_status(place, refusal),
        FontFileRefusal::Bytes(refusal) => bytes_status(place, refusal),
    }
}

/// The status of the data of fonts that are refused.
fn data_status(refusal: ScriptFontsRefusal) -> Status
    ensures { result ≡ data_status refusal }
{
    match refusal {
        ScriptFontsRefusal::BadCharacter(line) | ScriptFontsRefusal::BadLength(line) => {
            Status::BadScript(BadScript::FontData(line))
        }
        ScriptFontsRefusal::OutOfMemory => Status::OutOfMemory,
    }
}

/// The status of a script whose fonts are refused.
pub fn embedded_status(refusal: EmbeddedRefusal) -> Status
    ensures { result ≡ embedded_status refusal }
{
    match refusal {
        EmbeddedRefusal::Data(refusal) => data_status(refusal),
        EmbeddedRefusal::Font(place, refusal) => font_status(FontPlace::Held(place), refusal),
        EmbeddedRefusal::TooMany => Status::TooLarge(What::Fonts, MAX_FONTS),
    }
}
