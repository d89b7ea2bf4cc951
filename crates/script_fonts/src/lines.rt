//! The lines of a script as its sections of fonts see them.

ghost use Rattle.std.specs.Prelude.{◌≡◌, if◌then◌else◌};
ghost use Rattle.std.specs.Option.{option_copied};
ghost use Rattle.ass_script.specs.Words.{past_mark};
ghost use Rattle.ass_script.specs.Lines.{is_bracketed};
ghost use Rattle.script_fonts.specs.Attachments.{is_known_heading, begins_section, begins_fonts, begins_font, file_name_in};

use crate::coding::is_data;
use ass_num::past_blanks;

/// The bytes behind a byte order mark.
#[tactic(auto, unfolding(ass_script::specs::Words::past_mark))]
pub fn past_mark(bytes: &[u8]) -> &[u8]
    ensures { result.now ≡ past_mark bytes.now }
{
    if bytes.starts_with(b"\xef\xbb\xbf") {
        return &bytes[3..];
    }
    bytes
}

fn is_bracketed(line: &[u8]) -> bool
    ensures { result ≡ is_bracketed line.now }
{
    !line.is_empty() && line[0] == b'[' && line[line.len() - 1] == b']'
}

/// The heading of a section of fonts.
#[tactic(auto, unfolding(crate::specs::Attachments::begins_fonts))]
pub fn begins_fonts(line: &[u8]) -> bool
    ensures { result ≡ begins_fonts line.now }
{
    line.eq_ignore_ascii_case(b"[Fonts]")
}

/// The name of a section that, in capitals, could be data.
#[tactic(auto, unfolding(crate::specs::Attachments::is_known_heading))]
fn is_known_heading(line: &[u8]) -> bool
    ensures { result ≡ is_known_heading line.now }
{
    line.eq_ignore_ascii_case(b"[Events]")
        || line.eq_ignore_ascii_case(b"[Fonts]")
        || line.eq_ignore_ascii_case(b"[Graphics]")
}

/// A heading of any section.
#[tactic(auto, unfolding(crate::specs::Attachments::begins_section))]
pub fn begins_section(line: &[u8]) -> bool
    ensures { result ≡ begins_section line.now }
{
    is_bracketed(line) && (!is_data(line) || is_known_heading(line))
}

/// The name of the file, if the line names a font.
#[tactic(auto, unfolding(crate::specs::Attachments::begins_font, crate::specs::Attachments::file_name_in))]
pub fn file_name_in(line: &[u8]) -> Option<&[u8]>
    ensures { option_copied result ≡ if begins_font line.now then Some (file_name_in line.now) else None }
{
    Some(past_blanks(line.strip_prefix(b"fontname:")?))
}
