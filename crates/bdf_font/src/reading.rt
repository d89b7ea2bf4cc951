//! The walk over the lines of a font.

ghost use Rattle.std.specs.Prelude.{◌≡◌, ◌+◌, ◌*◌, ◌/◌, ◌<◌, ◌≤◌, length, IfSome};
ghost use Rattle.bdf_font.specs.Grammar.{cell_pixels};
ghost use Rattle.bdf_font.specs.Limits.{max_bitmap_side, max_glyphs};
ghost use Rattle.bdf_font.specs.Ranges.{IsBitmap, IsBox, IsGlyph, IsMeasure, IsOffset, IsDraft, IsReadingPlace, IsFontReading, Keeps};
ghost use Rattle.bdf_font.specs.Rows.{Gives};
ghost use Rattle.bdf_font.specs.Steps.{no_font_lines, no_glyph, first_line, font_step, glyph_line, draft_line, bitmap_line, row_line, reading_after};
ghost use Rattle.bdf_font.specs.Steps.{advance_or, made_glyph};

use crate::bits::Bits;
use crate::cause::{FontCause, Stop};
use crate::glyphs::{BoundingBox, FontGlyph, Pixels};
use crate::header::Header;
use crate::keyword::{GlyphKeyword, HeaderKeyword, Keyword, keyword_of};
use crate::numbers::{bounding_box, offset};
use crate::words::first_word;
use ass_num::{Items, read_whole, trimmed};
use std::alloc::Global;
use std::mem;

/// The most glyphs that a font has.
pub const MAX_GLYPHS: usize = 131_072;

/// Where a line stands.
#[derive(Clone, Copy, Debug, PartialEq, Eq)]
pub enum LinePlace {
    /// Before `STARTFONT`.
    Start,
    /// In the font, outside its glyphs.
    Font,
    /// In a glyph, before its bitmap.
    Glyph,
    /// In a bitmap of this box, of which so many rows are still to come.
    Bitmap(BoundingBox, u16),
}

/// What was said of a glyph so far; of several like lines the last.
#[derive(Debug, Drop)]
pub struct Draft {
    pub code: i64,
    pub advance: Option<i16>,
    pub bounding_box: Option<BoundingBox>,
    pub bits: Bits,
}

impl Draft {
    fn new(alloc: Global) -> Draft
        ensures new { result ≡ no_glyph }
        ensures sound { IsDraft result }
    {
        Draft {
            code: -1,
            advance: None,
            bounding_box: None,
            bits: Bits::new(alloc),
        }
    }

    /// The glyph with this box.
    fn made(self, cell: BoundingBox) -> FontGlyph
        requires draft { IsDraft self }
        requires cell { IsBox cell }
        requires rows { length self.bits ≡ cell.h * ((cell.w + 7) / 8) }
        ensures made { result ≡ made_glyph self cell }
        ensures sound { IsGlyph result }
    {
        let advance = advance_or(self.advance, cell.w);
        let pixels = cell_pixels(cell, self.bits.into_items());
        FontGlyph::of_pixels(self.code, advance, pixels)
    }

    fn line(&mut self, keyword: GlyphKeyword, rest: &[u8]) -> Result<(), Stop>
        requires { IsDraft self.old }
        ensures read { Gives result self.new (draft_line keyword rest.now self.old) }
        ensures sound { IsDraft self.new }
        ensures bits { self.new.bits ≡ self.old.bits }
    {
        match keyword {
            GlyphKeyword::Encoding => {
                let Some(code) = read_whole(first_word(rest).0) else {
                    return Err(Stop::Fault(FontCause::BadNumber));
                };
                self.code = i64::from(code);
                Ok(())
            }
            GlyphKeyword::Width => {
                let Some(advance) = offset(first_word(rest).0) else {
                    return Err(Stop::Fault(FontCause::BadNumber));
                };
                self.advance = Some(advance);
                Ok(())
            }
            GlyphKeyword::Box => {
                let Some(bounding_box) = bounding_box(rest) else {
                    return Err(Stop::Fault(FontCause::BadNumber));
                };
                self.bounding_box = Some(bounding_box);
                Ok(())
            }
            GlyphKeyword::Bitmap | GlyphKeyword::EndChar => {
                Err(Stop::Fault(FontCause::Misplaced))
            }
        }
    }
}

/// An advance, or else the width.
fn advance_or(advance: Option<i16>, w: u16) -> i32
    requires advance { IfSome advance IsOffset }
    requires w { w ≤ max_bitmap_side }
    ensures value { result ≡ advance_or advance w }
    ensures within { IsMeasure result }
{
    match advance {
        Some(advance) => i32::from(advance),
        None => i32::from(w),
    }
}

/// The bitmap of a box with these bytes.
fn cell_pixels(cell: BoundingBox, bits: Items<u8>) -> Pixels
    requires cell { IsBox cell }
    requires rows { length bits ≡ cell.h * ((cell.w + 7) / 8) }
    ensures value { result ≡ cell_pixels cell bits }
    ensures sound { IsBitmap result }
{
    Pixels {
        w: u32::from(cell.w),
        h: u32::from(cell.h),
        x: i32::from(cell.x),
        y: i32::from(cell.y),
        bits,
    }
}

/// What was read so far.
#[derive(Debug, Drop)]
pub struct Reading {
    pub place: LinePlace,
    pub header: Header,
    pub glyphs: Items<FontGlyph>,
    pub draft: Draft,
}

impl Reading {
    /// Before the first line.
    pub fn new(alloc: Global) -> Reading
        ensures new { result ≡ no_font_lines }
        ensures sound { IsFontReading result }
    {
        Reading {
            place: LinePlace::Start,
            header: Header::new(),
            glyphs: Items::new(alloc),
            draft: Draft::new(alloc),
        }
    }

    /// Reads the next line.
    pub fn line(&mut self, alloc: Global, line: &[u8]) -> Result<(), Stop>
        requires sound { IsFontReading self.old }
        ensures read { Gives result self.new (reading_after line.now self.old) }
        ensures sound { Keeps result (IsFontReading self.new) }
    {
        if let LinePlace::Bitmap(cell, left) = self.place {
            return self.bitmap_line(alloc, cell, left, line);
        }
        let (word, rest) = first_word(line);
        let keyword = keyword_of(word);
        match self.place {
            LinePlace::Start => self.first_line(keyword),
            LinePlace::Font => self.font_step(alloc, keyword, rest),
            LinePlace::Glyph => self.glyph_line(alloc, keyword, rest),
            LinePlace::Bitmap(_, _) => unreachable!(),
        }
    }

    fn first_line(&mut self, keyword: Keyword) -> Result<(), Stop>
        requires sound { IsFontReading self.old }
        ensures read { Gives result self.new (first_line keyword self.old) }
        ensures sound { Keeps result (IsFontReading self.new) }
    {
        match keyword {
            Keyword::StartFont => {
                self.place = LinePlace::Font;
                Ok(())
            }
            Keyword::Header(HeaderKeyword::Property(_)) => Ok(()),
            Keyword::Unknown => Ok(()),
            _ => Err(Stop::Fault(FontCause::NoStart)),
        }
    }

    fn font_step(&mut self, alloc: Global, keyword: Keyword, rest: &[u8]) -> Result<(), Stop>
        requires sound { IsFontReading self.old }
        ensures read { Gives result self.new (font_step keyword rest.now self.old) }
        ensures sound { Keeps result (IsFontReading self.new) }
    {
        match keyword {
            Keyword::StartFont => Ok(()),
            Keyword::EndFont => Err(Stop::End),
            Keyword::StartChar => {
                if self.glyphs.len() >= MAX_GLYPHS {
                    return Err(Stop::Full);
                }
                self.place = LinePlace::Glyph;
                Ok(())
            }
            Keyword::Glyph(_) => Err(Stop::Fault(FontCause::Misplaced)),
            Keyword::Header(keyword) => {
                self.header.line(alloc, keyword, rest)?;
                Ok(())
            }
            Keyword::Unknown => Ok(()),
        }
    }

    fn glyph_line(&mut self, alloc: Global, keyword: Keyword, rest: &[u8]) -> Result<(), Stop>
        requires sound { IsFontReading self.old }
        requires open { length self.old.glyphs < max_glyphs }
        ensures read { Gives result self.new (glyph_line keyword rest.now self.old) }
        ensures sound { Keeps result (IsFontReading self.new) }
    {
        match keyword {
            Keyword::StartFont => Ok(()),
            Keyword::EndFont => Err(Stop::Fault(FontCause::Misplaced)),
            Keyword::StartChar => Err(Stop::Fault(FontCause::Misplaced)),
            Keyword::Glyph(GlyphKeyword::Bitmap) => {
                let Some(cell) = self.draft.bounding_box else {
                    return Err(Stop::Fault(FontCause::Misplaced));
                };
                let bytes = bitmap_bytes(cell.w, cell.h);
                self.draft.bits = Bits::with_room(alloc, bytes)?;
                self.place = LinePlace::Bitmap(cell, cell.h);
                Ok(())
            }
            Keyword::Glyph(keyword) => {
                self.draft.line(keyword, rest)?;
                Ok(())
            }
            Keyword::Header(keyword) => {
                self.header.line(alloc, keyword, rest)?;
                Ok(())
            }
            Keyword::Unknown => Ok(()),
        }
    }

    fn bitmap_line(
        &mut self,
        alloc: Global,
        cell: BoundingBox,
        left: u16,
        line: &[u8],
    ) -> Result<(), Stop>
        requires sound { IsFontReading self.old }
        requires place { IsReadingPlace (LinePlace.Bitmap cell left) (length self.old.glyphs) (length self.old.draft.bits) }
        ensures read { Gives result self.new (bitmap_line cell left line.now self.old) }
        ensures sound { Keeps result (IsFontReading self.new) }
    {
        if left > 0 {
            return self.row_line(cell, left - 1, trimmed(line));
        }
        if keyword_of(first_word(line).0) != Keyword::Glyph(GlyphKeyword::EndChar) {
            return Err(Stop::Fault(FontCause::BadRow));
        }
        let draft = mem::replace(&mut self.draft, Draft::new(alloc));
        self.glyphs.push(draft.made(cell))?;
        self.place = LinePlace::Font;
        Ok(())
    }

    fn row_line(&mut self, cell: BoundingBox, left: u16, digits: &[u8]) -> Result<(), Stop>
        requires sound { IsFontReading self.old }
        requires place { IsReadingPlace (LinePlace.Bitmap cell (left + 1)) (length self.old.glyphs) (length self.old.draft.bits) }
        ensures read { Gives result self.new (row_line cell left digits.now self.old) }
        ensures sound { Keeps result (IsFontReading self.new) }
    {
        self.draft.bits.push_row(digits, row_bytes(cell.w))?;
        self.place = LinePlace::Bitmap(cell, left);
        Ok(())
    }
}

/// How many bytes a row of so many pixels takes.
fn row_bytes(w: u16) -> usize
    ensures bytes { result ≡ (w + 7) / 8 }
    ensures small { result ≤ 8192 }
{
    (usize::from(w) + 7) / 8
}

/// How many bytes a bitmap takes.
fn bitmap_bytes(w: u16, h: u16) -> usize {
    row_bytes(w) * usize::from(h)
}
