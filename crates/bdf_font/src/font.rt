//! Fonts, and what is found in them.

ghost use Rattle.std.specs.Prelude.{◌≡◌, ◌<◌, ◌≤◌, [], length, pos, true, IfOk, IfSome, option_and_then, slice_get, slice_index_or};
ghost use Rattle.std.specs.Option.{option_map, option_map_or};
ghost use Rattle.ass_num.specs.Names.{same_name};
ghost use Rattle.bdf_font.specs.FontData.{font_value, IsFontData};
ghost use Rattle.bdf_font.specs.Fonts.{bitmap_font, glyph_of, place_of};
ghost use Rattle.bdf_font.specs.Limits.{max_glyphs};
ghost use Rattle.bdf_font.specs.Outlines.{outline_font};
ghost use Rattle.bdf_font.specs.Pixels.{pixels_in, contours_in, strokes_in};
ghost use Rattle.bdf_font.specs.Sets.{has_full_name, is_among, is_missing_at, is_of_family, without_at};
ghost use Rattle.bdf_font.specs.declared.glyphs.FontGlyph.{FontGlyph};
ghost use Rattle.sfnt_font.specs.Ranges.{IsSfntFont};

use crate::bitmap_font::BitmapFont;
use crate::font_data::FontData;
use crate::glyphs::{FontGlyph, Pixels};
use crate::outlines::{
    MISSING_CODE, outline_advance, outline_contours, outline_is_blank, outline_is_missing,
    outline_place, outline_strokes,
};
use ass_num::{FlatLists, Items, Mem};
use outline_points::{GlyphPoint, Stroke};
use sfnt_font::{Bar, SfntFont};
use std::alloc::Global;
use std::marker::Model;
use std::sync::Arc;

/// The weight of regular letters.
pub const REGULAR: u16 = 400;

/// A font. It is shared: another owner costs no more than a count. Glyphs of a TrueType font are read when they are
/// asked for; contracts see the list of all.
#[derive(Debug, Drop)]
pub struct Font {
    data: Arc<FontData>,
}

impl Model for Font {
    ghost use Rattle.std.specs.Arc.{arc_value};
    ghost use Rattle.bdf_font.specs.Fonts.{FontValue};
    ghost use Rattle.bdf_font.specs.FontData.{font_value, IsFontData};

    ghost Value = { FontValue };

    ghost view = { λ f. font_value (arc_value f.data) };

    ghost invariant = { λ f. IsFontData (arc_value f.data) };
}

impl Font {
    /// A font of these bitmaps.
    pub fn new(
        alloc: Global,
        name: Items<u8>,
        ascent: i32,
        descent: i32,
        default_char: Option<i64>,
        glyphs: Items<FontGlyph>,
    ) -> Mem<Font>
        requires { length glyphs ≤ max_glyphs }
        ensures { IfOk result (λ font. font ≡ bitmap_font name ascent descent default_char glyphs) }
    {
        let font = BitmapFont::new(alloc, name, ascent, descent, default_char, glyphs)?;
        Ok(Font {
            data: Arc::new(alloc, FontData::Bitmaps(font))?,
        })
    }

    /// The font that a TrueType font is.
    pub fn of_outlines(alloc: Global, font: SfntFont) -> Mem<Font>
        requires { IsSfntFont font }
        ensures { IfOk result (λ made. made ≡ outline_font font) }
    {
        Ok(Font {
            data: Arc::new(alloc, FontData::Outlines(font))?,
        })
    }

    /// The font for another owner; nothing of it is copied.
    pub fn share(&self) -> Mem<Font>
        ensures { IfOk result (λ font. font ≡ self.now) }
    {
        Ok(Font {
            data: Arc::try_clone(&self.data)?,
        })
    }

    /// What the font keeps.
    fn data(&self) -> &FontData
        ensures value { font_value result.now ≡ self.now }
        ensures sound { IsFontData result.now }
    {
        &self.data
    }

    /// The name that the font is told by: that of its first family.
    pub fn name(&self) -> &[u8]
        ensures { result.now ≡ self.now.name }
    {
        match self.data() {
            FontData::Bitmaps(font) => font.name(),
            FontData::Outlines(font) => font.names().first(),
        }
    }

    /// How many families the font is of.
    pub fn family_count(&self) -> usize
        ensures { result ≡ length self.now.families }
    {
        match self.data() {
            FontData::Bitmaps(_) => 1,
            FontData::Outlines(font) => font.names().families.len(),
        }
    }

    /// The name of a family that the font is of.
    pub fn family(&self, k: usize) -> &[u8]
        requires { k < length self.now.families }
        ensures { result.now ≡ slice_index_or self.now.families k [] }
    {
        match self.data() {
            FontData::Bitmaps(font) => font.name(),
            FontData::Outlines(font) => font.names().families.get(k),
        }
    }

    /// How many full names the font has.
    pub fn full_name_count(&self) -> usize
        ensures { result ≡ length self.now.full_names }
    {
        match self.data() {
            FontData::Bitmaps(_) => 0,
            FontData::Outlines(font) => font.names().full_names.len(),
        }
    }

    /// A full name of the font.
    pub fn full_name(&self, k: usize) -> &[u8]
        requires { k < length self.now.full_names }
        ensures { result.now ≡ slice_index_or self.now.full_names k [] }
    {
        match self.data() {
            FontData::Bitmaps(_) => &[],
            FontData::Outlines(font) => font.names().full_names.get(k),
        }
    }

    /// Whether the font is of this family, without regard to ASCII case.
    pub(crate) fn is_of_family(&self, name: &str) -> bool
        ensures { result ≡ is_of_family name.now self.now }
    {
        match self.data() {
            FontData::Bitmaps(font) => same_name(font.name(), name.as_bytes()),
            FontData::Outlines(font) => {
                is_among(without_at(name.as_bytes()), &font.names().families)
            }
        }
    }

    /// Whether the font has this full name, likewise.
    pub(crate) fn has_full_name(&self, name: &str) -> bool
        ensures { result ≡ has_full_name name.now self.now }
    {
        match self.data() {
            FontData::Bitmaps(_) => false,
            FontData::Outlines(font) => {
                is_among(without_at(name.as_bytes()), &font.names().full_names)
            }
        }
    }

    /// How bold the letters are: 400 are regular ones, 700 bold ones.
    pub fn weight(&self) -> u16
        ensures { result ≡ self.now.weight }
    {
        match self.data() {
            FontData::Bitmaps(_) => REGULAR,
            FontData::Outlines(font) => font.numbers().weight,
        }
    }

    /// Whether the letters slant to the right.
    pub fn is_slanted(&self) -> bool
        ensures { result ≡ self.now.slanted }
    {
        match self.data() {
            FontData::Bitmaps(_) => false,
            FontData::Outlines(font) => font.numbers().slanted,
        }
    }

    /// Whether the glyphs are outlines.
    pub fn is_outline(&self) -> bool
        ensures { result ≡ self.now.is_outline }
    {
        match self.data() {
            FontData::Bitmaps(_) => false,
            FontData::Outlines(_) => true,
        }
    }

    /// The height above the baseline, in pixels of bitmaps or units of contours.
    pub fn ascent(&self) -> i32
        ensures { result ≡ self.now.ascent }
    {
        match self.data() {
            FontData::Bitmaps(font) => font.ascent(),
            FontData::Outlines(font) => font.numbers().ascent,
        }
    }

    /// The depth below the baseline, likewise.
    pub fn descent(&self) -> i32
        ensures { result ≡ self.now.descent }
    {
        match self.data() {
            FontData::Bitmaps(font) => font.descent(),
            FontData::Outlines(font) => font.numbers().descent,
        }
    }

    /// The code whose glyph stands in for missing ones.
    pub fn default_char(&self) -> Option<i64>
        ensures { result ≡ self.now.default_char }
    {
        match self.data() {
            FontData::Bitmaps(font) => font.default_char(),
            FontData::Outlines(_) => Some(MISSING_CODE),
        }
    }

    /// The bar under a line.
    pub fn underline(&self) -> Option<Bar>
        ensures { result ≡ self.now.underline }
    {
        match self.data() {
            FontData::Bitmaps(font) => Some(font.underline()),
            FontData::Outlines(font) => font.numbers().underline,
        }
    }

    /// The bar through a line.
    pub fn strikeout(&self) -> Option<Bar>
        ensures { result ≡ self.now.strikeout }
    {
        match self.data() {
            FontData::Bitmaps(font) => Some(font.strikeout()),
            FontData::Outlines(font) => font.numbers().strikeout,
        }
    }

    /// How far to the right the second outline of a bold glyph lies.
    pub fn bold_step(&self) -> i32
        ensures { result ≡ self.now.bold_step }
    {
        match self.data() {
            FontData::Bitmaps(font) => font.bold_step(),
            FontData::Outlines(font) => i32::from(font.numbers().bold_step),
        }
    }

    /// How many glyphs there are.
    pub fn glyph_count(&self) -> usize
        ensures { result ≡ length self.now.glyphs }
    {
        match self.data() {
            FontData::Bitmaps(font) => font.glyphs().len(),
            FontData::Outlines(font) => font.glyph_count() as usize,
        }
    }

    /// How far a glyph advances the pen.
    pub fn advance_at(&self, g: u32) -> i32
        requires { g < length self.now.glyphs }
        ensures { result ≡ option_map_or (λ (glyph : FontGlyph). glyph.advance) (slice_get self.now.glyphs g) (pos 0) }
    {
        match self.data() {
            FontData::Bitmaps(font) => font.glyph_at(g).advance,
            FontData::Outlines(font) => outline_advance(font, g),
        }
    }

    /// Whether nothing of a glyph is seen.
    pub fn is_blank_at(&self, g: u32) -> bool
        requires { g < length self.now.glyphs }
        ensures { result ≡ option_map_or (λ (glyph : FontGlyph). glyph.blank) (slice_get self.now.glyphs g) true }
    {
        match self.data() {
            FontData::Bitmaps(font) => font.glyph_at(g).blank,
            FontData::Outlines(font) => outline_is_blank(font, g),
        }
    }

    /// Whether a glyph is drawn for missing characters.
    pub(crate) fn is_missing_at(&self, g: u32) -> bool
        requires { g < length self.now.glyphs }
        ensures { result ≡ is_missing_at self.now.glyphs g }
    {
        match self.data() {
            FontData::Bitmaps(font) => font.glyph_at(g).missing,
            FontData::Outlines(font) => outline_is_missing(font, g),
        }
    }

    /// The bitmap of a glyph that has one.
    pub fn pixels_at(&self, g: u32) -> Option<&Pixels>
        requires { g < length self.now.glyphs }
        ensures { option_map (λ pixels. pixels.now) result ≡ option_and_then (λ (glyph : FontGlyph). pixels_in glyph.shape) (slice_get self.now.glyphs g) }
    {
        match self.data() {
            FontData::Bitmaps(font) => font.glyph_at(g).shape.pixels(),
            FontData::Outlines(_) => None,
        }
    }

    /// The contours of a glyph; a bitmap has none.
    pub fn contours_at(&self, alloc: Global, g: u32) -> Mem<FlatLists<GlyphPoint>>
        requires { g < length self.now.glyphs }
        ensures { IfOk result (λ contours. contours ≡ option_map_or (λ (glyph : FontGlyph). contours_in glyph.shape) (slice_get self.now.glyphs g) []) }
    {
        match self.data() {
            FontData::Bitmaps(font) => font.glyph_at(g).shape.contours(alloc),
            FontData::Outlines(font) => outline_contours(alloc, font, g),
        }
    }

    /// The contours of lines and cubic curves of a glyph; one of another shape has none.
    pub fn strokes_at(&self, alloc: Global, g: u32) -> Mem<FlatLists<Stroke>>
        requires { g < length self.now.glyphs }
        ensures { IfOk result (λ contours. contours ≡ option_map_or (λ (glyph : FontGlyph). strokes_in glyph.shape) (slice_get self.now.glyphs g) []) }
    {
        match self.data() {
            FontData::Bitmaps(font) => font.glyph_at(g).shape.strokes(alloc),
            FontData::Outlines(font) => outline_strokes(alloc, font, g),
        }
    }

    /// The place of the first glyph with a character's code.
    pub(crate) fn code_place(&self, c: char) -> Option<u32>
        ensures value { result ≡ place_of self.now.glyphs (pos c) }
        ensures within { IfSome result (λ place. place < length self.now.glyphs) }
    {
        match self.data() {
            FontData::Bitmaps(font) => font.code_place(c),
            FontData::Outlines(font) => font.place_of(u32::from(c)),
        }
    }

    /// The place of a character's glyph.
    fn place_of(&self, c: char) -> Option<u32>
        ensures { result ≡ glyph_of self.now c }
    {
        match self.data() {
            FontData::Bitmaps(font) => font.place_of(c),
            FontData::Outlines(font) => outline_place(font, c),
        }
    }
}

/// The place of a character's glyph: of the first with its code, or else of the first with the default code.
pub fn glyph(font: &Font, c: char) -> Option<u32>
    ensures place { result ≡ glyph_of font.now c }
    ensures within { IfSome result (λ place. place < length font.now.glyphs) }
{
    font.place_of(c)
}

/// Whether two names are one without regard to ASCII case.
fn same_name(a: &[u8], b: &[u8]) -> bool
    ensures { result ≡ same_name a.now b.now }
{
    a.eq_ignore_ascii_case(b)
}

/// Whether one of these names is this one.
fn is_among(name: &[u8], names: &FlatLists<u8>) -> bool
    ensures { result ≡ is_among name.now names.now }
{
    for k in 0..names.len() {
        if same_name(names.get(k), name) {
            return true;
        }
    }
    false
}

/// A name without the `@` of vertical writing before it.
fn without_at(name: &[u8]) -> &[u8]
    ensures { result.now ≡ without_at name.now }
{
    if name.len() > 0 && name[0] == b'@' {
        &name[1..]
    } else {
        name
    }
}
