//! Where a font's file leaves its format.

ghost use Rattle.std.specs.Prelude.{◌≡◌, ◌++◌, IfOk, codes, string_bytes};
ghost use Rattle.run_status.specs.FontFaults.{bad_font_line, byte_cause_text, line_cause_text, outlines_text, place_text, tag_text};

use ass_num::Mem;
use bdf_font::FontCause;
use cff_font::CffCause;
use sfnt_font::{SfntCause, Tag};
use std::alloc::Global;

/// Which file of fonts it is. Places are counted from 0.
#[derive(Clone, Copy, Debug, PartialEq, Eq)]
pub enum FontPlace {
    /// The one at this place among those that the words name.
    Named(usize),
    /// The one at this place among those that the script holds.
    Held(usize),
}

/// Where a font's file leaves its format, and how.
#[derive(Clone, Copy, Debug, PartialEq, Eq)]
pub enum FontFault {
    /// At this line, from 1.
    Line(usize, FontCause),
    /// At this byte of a TrueType font, from 0.
    Byte(usize, SfntCause),
}

/// How lines leave the format, in words.
fn line_cause_text(cause: FontCause) -> &'static str
    ensures { result.now ≡ line_cause_text cause }
{
    match cause {
        FontCause::NoStart => "no start",
        FontCause::BadNumber => "bad number",
        FontCause::BadRow => "bad row",
        FontCause::Misplaced => "misplaced",
        FontCause::NoEnd => "no end",
    }
}

/// A table that is missing, in words.
fn no_table_text(tag: Tag) -> &'static str
    ensures { result.now ≡ codes "no table " ++ tag_text tag }
{
    match tag {
        Tag::Head => "no table head",
        Tag::Maxp => "no table maxp",
        Tag::Hhea => "no table hhea",
        Tag::Hmtx => "no table hmtx",
        Tag::Loca => "no table loca",
        Tag::Glyf => "no table glyf",
        Tag::Cmap => "no table cmap",
    }
}

/// A table that is too short, in words.
fn short_table_text(tag: Tag) -> &'static str
    ensures { result.now ≡ codes "short table " ++ tag_text tag }
{
    match tag {
        Tag::Head => "short table head",
        Tag::Maxp => "short table maxp",
        Tag::Hhea => "short table hhea",
        Tag::Hmtx => "short table hmtx",
        Tag::Loca => "short table loca",
        Tag::Glyf => "short table glyf",
        Tag::Cmap => "short table cmap",
    }
}

/// How a table of PostScript outlines isn't one, in words.
fn outlines_text(cause: CffCause) -> &'static str
    ensures { result.now ≡ outlines_text cause }
{
    match cause {
        CffCause::Short => "short table CFF",
        CffCause::Version => "version of CFF",
        CffCause::BadIndex => "bad INDEX",
        CffCause::BadDict => "bad DICT",
    }
}

/// How the bytes of a TrueType font leave the format, in words.
fn byte_cause_text(cause: SfntCause) -> &'static str
    ensures { result.now ≡ byte_cause_text cause }
{
    match cause {
        SfntCause::Compressed => "compressed",
        SfntCause::Ends => "ends",
        SfntCause::BadPlace => "bad place",
        SfntCause::PostScript => "PostScript",
        SfntCause::BadOutlines(cause) => outlines_text(cause),
        SfntCause::NotSfnt => "not TrueType",
        SfntCause::NoTable(tag) => no_table_text(tag),
        SfntCause::ShortTable(tag) => short_table_text(tag),
        SfntCause::BadNumber => "bad number",
        SfntCause::NoMap => "no map",
        SfntCause::BadMap => "bad map",
    }
}

/// Which font it is, in words.
fn place_text(alloc: Global, place: FontPlace) -> Mem<String>
    ensures { IfOk result (λ text. string_bytes text ≡ place_text place) }
{
    match place {
        FontPlace::Named(index) => Ok(format!(in alloc; "{index}")?),
        FontPlace::Held(index) => Ok(format!(in alloc; "{index} of the script")?),
    }
}

/// The line of the report on a font that leaves its format at line or at byte n.
fn bad_font_line(alloc: Global, font: &str, part: &str, n: usize, cause: &str) -> Mem<String>
    ensures { IfOk result (λ text. string_bytes text ≡ bad_font_line font.now part.now n cause.now) }
{
    Ok(format!(in alloc; "bad font {font} {part} {n}: {cause}\n")?)
}

impl FontFault {
    ghost use Rattle.std.specs.Prelude.{◌≡◌, IfOk, string_bytes};
    ghost use Rattle.run_status.specs.FontFaults.{fault_line};

    /// The line of the report on the font that has this place.
    pub(crate) fn line(self, alloc: Global, place: FontPlace) -> Mem<String>
        ensures { IfOk result (λ line. string_bytes line ≡ fault_line place self) }
    {
        let font = place_text(alloc, place)?;
        let font = font.as_str();
        match self {
            FontFault::Line(n, cause) => {
                bad_font_line(alloc, font, "line", n, line_cause_text(cause))
            }
            FontFault::Byte(n, cause) => {
                bad_font_line(alloc, font, "byte", n, byte_cause_text(cause))
            }
        }
    }
}
