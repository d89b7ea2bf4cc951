//! What the lines of a font say of the font itself.

ghost use Rattle.std.specs.Prelude.{◌≡◌, ◌≤◌, length, All, IfOk, IfSome, unwrap_or};
ghost use Rattle.bdf_font.specs.Limits.{max_glyphs};
ghost use Rattle.bdf_font.specs.Ranges.{IsBox, IsOffset, IsGlyph, IsFontHeader, IsFont};
ghost use Rattle.bdf_font.specs.Grammar.{box_top, box_depth, from_zero};
ghost use Rattle.bdf_font.specs.Rows.{Gives};
ghost use Rattle.bdf_font.specs.Steps.{no_header, header_step, property_line, font_made};

use crate::cause::{FontCause, Stop};
use crate::font::Font;
use crate::glyphs::{BoundingBox, FontGlyph};
use crate::keyword::{HeaderKeyword, PropertyKeyword};
use crate::numbers::{bounding_box, family_name, offset};
use crate::words::first_word;
use ass_num::{Items, Mem, read_whole, trimmed};
use std::alloc::Global;

/// What was said so far; of several like lines the last.
#[derive(Debug, Drop)]
pub struct Header {
    /// Between the property lines.
    pub properties: bool,
    pub title: Option<Items<u8>>,
    pub family: Option<Items<u8>>,
    pub bounding_box: Option<BoundingBox>,
    pub ascent: Option<i16>,
    pub descent: Option<i16>,
    pub default_char: Option<i64>,
}

/// A text for an owner of its own.
fn copied(alloc: Global, text: &[u8]) -> Mem<Items<u8>>
    ensures { IfOk result (λ copy. copy ≡ text.now) }
{
    Ok(Items::from_vec(Vec::from_slice(alloc, text)?))
}

/// How far a box reaches above the baseline.
fn box_top(bounding_box: Option<BoundingBox>) -> i32
    ensures { result ≡ box_top bounding_box }
{
    match bounding_box {
        Some(cell) => i32::from(cell.h) + i32::from(cell.y),
        None => 0,
    }
}

/// How far a box reaches below the baseline.
fn box_depth(bounding_box: Option<BoundingBox>) -> i32
    ensures { result ≡ box_depth bounding_box }
{
    match bounding_box {
        Some(cell) => -i32::from(cell.y),
        None => 0,
    }
}

/// A height that is given, or else another; below 0 it is 0.
fn height(given: Option<i16>, other: i32) -> i32
    ensures { result ≡ from_zero (unwrap_or given other) }
{
    let height = match given {
        Some(height) => i32::from(height),
        None => other,
    };
    if height < 0 { 0 } else { height }
}

impl Header {
    /// Nothing was said yet.
    pub fn new() -> Header
        ensures new { result ≡ no_header }
        ensures sound { IsFontHeader result }
    {
        Header {
            properties: false,
            title: None,
            family: None,
            bounding_box: None,
            ascent: None,
            descent: None,
            default_char: None,
        }
    }

    /// Reads a line of the font itself: `rest` follows its keyword.
    pub fn line(&mut self, alloc: Global, keyword: HeaderKeyword, rest: &[u8]) -> Result<(), Stop>
        requires { IsFontHeader self.old }
        ensures read { Gives result self.new (header_step keyword rest.now self.old) }
        ensures sound { IsFontHeader self.new }
    {
        match keyword {
            HeaderKeyword::Name => {
                self.title = Some(copied(alloc, trimmed(rest))?);
                Ok(())
            }
            HeaderKeyword::Box => {
                let Some(bounding_box) = bounding_box(rest) else {
                    return Err(Stop::Fault(FontCause::BadNumber));
                };
                self.bounding_box = Some(bounding_box);
                Ok(())
            }
            HeaderKeyword::StartProperties => {
                self.properties = true;
                Ok(())
            }
            HeaderKeyword::EndProperties => {
                self.properties = false;
                Ok(())
            }
            HeaderKeyword::Property(keyword) => {
                if !self.properties {
                    return Ok(());
                }
                self.property_line(alloc, keyword, rest)
            }
        }
    }

    fn property_line(
        &mut self,
        alloc: Global,
        keyword: PropertyKeyword,
        rest: &[u8],
    ) -> Result<(), Stop>
        requires { IsFontHeader self.old }
        ensures read { Gives result self.new (property_line keyword rest.now self.old) }
        ensures sound { IsFontHeader self.new }
    {
        match keyword {
            PropertyKeyword::Ascent => {
                let Some(ascent) = offset(first_word(rest).0) else {
                    return Err(Stop::Fault(FontCause::BadNumber));
                };
                self.ascent = Some(ascent);
                Ok(())
            }
            PropertyKeyword::Descent => {
                let Some(descent) = offset(first_word(rest).0) else {
                    return Err(Stop::Fault(FontCause::BadNumber));
                };
                self.descent = Some(descent);
                Ok(())
            }
            PropertyKeyword::DefaultChar => {
                let Some(code) = read_whole(first_word(rest).0) else {
                    return Err(Stop::Fault(FontCause::BadNumber));
                };
                self.default_char = Some(i64::from(code));
                Ok(())
            }
            PropertyKeyword::FamilyName => {
                self.family = Some(copied(alloc, family_name(rest))?);
                Ok(())
            }
        }
    }

    /// The font with these glyphs.
    pub fn made(self, alloc: Global, glyphs: Items<FontGlyph>) -> Mem<Font>
        requires few { length glyphs ≤ max_glyphs }
        requires glyphs { All IsGlyph glyphs }
        requires sound { IsFontHeader self }
        ensures made { IfOk result (λ font. font ≡ font_made self glyphs) }
        ensures font { IfOk result IsFont }
    {
        let top = box_top(self.bounding_box);
        let depth = box_depth(self.bounding_box);
        let name = self
            .family
            .unwrap_or(self.title.unwrap_or(Items::new(alloc)));
        let ascent = height(self.ascent, top);
        let descent = height(self.descent, depth);
        Font::new(alloc, name, ascent, descent, self.default_char, glyphs)
    }
}
