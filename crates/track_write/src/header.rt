//! The lines of a header, and of headings and Formats.

ghost use Rattle.std.specs.Prelude.{◌≡◌, ◌++◌, ◌∷◌, [], OnOk, codes};
ghost use Rattle.std.specs.List.{flat_map};
ghost use Rattle.track_write.specs.Rows.{ended, header_lines, matrix_lines, matrix_name, number_line, range_name, scaled_line, video_line, style_format_line, event_format_line};

use crate::numbers::put_whole;
use ass_num::Mem;
use ass_script::{ColourMatrix, ColourRange, Header, ScriptMatrix, VideoColours};
use std::alloc::Global;

fn put_plain_line(text: &mut Vec<u8>, line: &[u8]) -> Mem<()>
    ensures { OnOk result (text.new.items ≡ text.old.items ++ ended line.now) }
{
    text.extend_from_slice(line)?;
    text.push(b'\n')?;
    Ok(())
}

/// A line in two parts.
fn put_long_line(text: &mut Vec<u8>, first: &[u8], second: &[u8]) -> Mem<()>
    ensures { OnOk result (text.new.items ≡ text.old.items ++ ended (first.now ++ second.now)) }
{
    text.extend_from_slice(first)?;
    put_plain_line(text, second)
}

fn put_number_line(alloc: Global, text: &mut Vec<u8>, key: &[u8], number: u32) -> Mem<()>
    ensures { OnOk result (text.new.items ≡ text.old.items ++ ended (number_line key.now number)) }
{
    text.extend_from_slice(key)?;
    put_whole(alloc, text, i64::from(number))?;
    text.push(b'\n')?;
    Ok(())
}

fn put_scaled(text: &mut Vec<u8>, scaled: bool) -> Mem<()>
    ensures { OnOk result (text.new.items ≡ text.old.items ++ ended (scaled_line scaled)) }
{
    let line: &[u8] = if scaled {
        b"ScaledBorderAndShadow: yes"
    } else {
        b"ScaledBorderAndShadow: no"
    };
    put_plain_line(text, line)
}

fn range_name(range: ColourRange) -> &'static [u8]
    ensures { result.now ≡ range_name range }
{
    match range {
        ColourRange::Limited => b"TV.",
        ColourRange::Full => b"PC.",
    }
}

fn matrix_name(matrix: ColourMatrix) -> &'static [u8]
    ensures { result.now ≡ matrix_name matrix }
{
    match matrix {
        ColourMatrix::Bt601 => b"601",
        ColourMatrix::Bt709 => b"709",
        ColourMatrix::Smpte240m => b"240M",
        ColourMatrix::Fcc => b"FCC",
    }
}

/// The line of a video's colours.
fn put_video(text: &mut Vec<u8>, colours: VideoColours) -> Mem<()>
    ensures { OnOk result (text.new.items ≡ text.old.items ++ ended (video_line colours.range colours.matrix)) }
{
    text.extend_from_slice(b"YCbCr Matrix: ")?;
    put_long_line(text, range_name(colours.range), matrix_name(colours.matrix))
}

/// The line that says for which video the colours are.
fn put_matrix(text: &mut Vec<u8>, matrix: ScriptMatrix) -> Mem<()>
    ensures { OnOk result (text.new.items ≡ text.old.items ++ flat_map ended (matrix_lines matrix)) }
{
    match matrix {
        ScriptMatrix::Unsaid => Ok(()),
        ScriptMatrix::Unconverted => put_plain_line(text, b"YCbCr Matrix: None"),
        ScriptMatrix::Video(colours) => put_video(text, colours),
    }
}

/// The lines of the header.
pub fn put_header(alloc: Global, text: &mut Vec<u8>, header: Header) -> Mem<()>
    ensures { OnOk result (text.new.items ≡ text.old.items ++ flat_map ended (header_lines header)) }
{
    put_plain_line(text, b"[Script Info]")?;
    put_plain_line(text, b"ScriptType: v4.00+")?;
    put_number_line(alloc, text, b"PlayResX: ", header.res_x)?;
    put_number_line(alloc, text, b"PlayResY: ", header.res_y)?;
    put_number_line(alloc, text, b"WrapStyle: ", u32::from(header.wrap))?;
    put_scaled(text, header.scaled)?;
    put_matrix(text, header.matrix)?;
    Ok(())
}

/// The heading and the Format of the styles.
pub fn put_styles_head(text: &mut Vec<u8>) -> Mem<()>
    ensures { OnOk result (text.new.items ≡ text.old.items ++ flat_map ended (codes "[V4+ Styles]" ∷ style_format_line ∷ [])) }
{
    put_plain_line(text, b"[V4+ Styles]")?;
    put_long_line(
        text,
        b"Format: Name, Fontname, Fontsize, PrimaryColour, SecondaryColour, OutlineColour, BackColour, Bold, Italic, Underline, StrikeOut, ",
        b"ScaleX, ScaleY, Spacing, Angle, BorderStyle, Outline, Shadow, Alignment, MarginL, MarginR, MarginV, Encoding",
    )?;
    Ok(())
}

/// The heading and the Format of the events.
pub fn put_events_head(text: &mut Vec<u8>) -> Mem<()>
    ensures { OnOk result (text.new.items ≡ text.old.items ++ flat_map ended (codes "[Events]" ∷ event_format_line ∷ [])) }
{
    put_plain_line(text, b"[Events]")?;
    put_plain_line(
        text,
        b"Format: Layer, Start, End, Style, Name, MarginL, MarginR, MarginV, Effect, Text",
    )
}
