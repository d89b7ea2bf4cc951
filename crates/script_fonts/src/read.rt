//! The fonts of a script from its bytes.

ghost use Rattle.std.specs.Prelude.{◌≤◌, length};
ghost use Rattle.ass_num.specs.Limits.{max_file_bytes};
ghost use Rattle.script_fonts.specs.Attachments.{UnlessMemory, script_fonts_of};

use crate::font::ScriptFont;
use crate::lines::past_mark;
use crate::reading::Reading;
use crate::refusal::ScriptFontsRefusal;
use ass_num::{Items, trimmed};
use bstr::ByteSlice;
use std::alloc::Global;

/// The fonts that a script holds, in the order of its text, or the first line, from 1, at which the data of one leave
/// the format. `BadCharacter` names the line with the character, `BadLength` the line that names the font.
pub fn read_script_fonts(
    alloc: Global,
    bytes: &[u8],
) -> Result<Items<ScriptFont>, ScriptFontsRefusal>
    requires { length bytes.now ≤ max_file_bytes }
    ensures { UnlessMemory (script_fonts_of bytes.now) result }
{
    let mut reading = Reading::new(alloc);
    for line in past_mark(bytes).lines() {
        reading = reading.line(alloc, trimmed(line))?;
    }
    reading.made(alloc)
}
