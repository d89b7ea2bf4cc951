//! Fonts of bitmaps.

ghost use Rattle.std.specs.Prelude.{◌≡◌, ◌<◌, ◌≤◌, length, IfOk, slice_get, pos, Some};
ghost use Rattle.std.specs.Option.{option_or};
ghost use Rattle.bdf_font.specs.Fonts.{bitmap_font, glyph_of, place_of};
ghost use Rattle.bdf_font.specs.Limits.{max_glyphs};
ghost use Rattle.bdf_font.specs.Places.{IsInCodeOrder, IsIndex, entries_from, first_at};

use crate::glyphs::FontGlyph;
use ass_num::{Items, Mem};
use sfnt_font::Bar;
use std::alloc::Global;
use std::marker::Model;

/// A font of bitmaps: its name, its height above and below the baseline, the code that stands in for missing ones, and
/// its glyphs in the order of the text. It keeps the places of the glyphs in the order of their codes.
#[derive(Debug, Drop)]
pub struct BitmapFont {
    name: Items<u8>,
    ascent: i32,
    descent: i32,
    default_char: Option<i64>,
    glyphs: Items<FontGlyph>,
    places: Vec<(i64, u32)>,
    default_place: Option<u32>,
}

impl Model for BitmapFont {
    ghost use Rattle.bdf_font.specs.Fonts.{FontValue, bitmap_font};

    ghost Value = { FontValue };

    ghost use Rattle.std.specs.Prelude.{◌≡◌};
    ghost use Rattle.bdf_font.specs.Fonts.{place_of_default};
    ghost use Rattle.bdf_font.specs.Places.{IsIndex};

    ghost view = { λ f. bitmap_font f.name f.ascent f.descent f.default_char f.glyphs };

    ghost invariant = { λ f. IsIndex f.places.items f.glyphs × (f.default_place ≡ place_of_default f.default_char f.glyphs) };
}

/// The code and the place of each glyph.
fn entries_of(alloc: Global, glyphs: &[FontGlyph]) -> Mem<Vec<(i64, u32)>>
    requires { length glyphs.now ≤ max_glyphs }
    ensures { IfOk result (λ entries. entries.items ≡ entries_from 0 glyphs.now) }
{
    let mut entries = Vec::with_capacity(alloc, glyphs.len())?;
    for (place, glyph) in glyphs.iter().enumerate() {
        entries.push((glyph.code, place as u32))?;
    }
    Ok(entries)
}

/// The same in the order of the codes; equal codes stay in the order of their places.
fn places_of(alloc: Global, glyphs: &[FontGlyph]) -> Mem<Vec<(i64, u32)>>
    requires { length glyphs.now ≤ max_glyphs }
    ensures { IfOk result (λ places. IsIndex places.items glyphs.now) }
{
    let mut places = entries_of(alloc, glyphs)?;
    places.sort_by_key(|entry| entry.0)?;
    Ok(places)
}

/// The first place with this code.
fn found_place(places: &[(i64, u32)], code: i64) -> Option<u32>
    requires { IsInCodeOrder places.now }
    ensures { result ≡ first_at code places.now }
{
    let at = places.partition_point(|entry| entry.0 < code);
    if at < places.len() && places[at].0 <= code {
        return Some(places[at].1);
    }
    None
}

/// The place of a code, or else the default one.
fn place_or(places: &[(i64, u32)], code: i64, default_place: Option<u32>) -> Option<u32>
    requires { IsInCodeOrder places.now }
    ensures { result ≡ option_or (first_at code places.now) default_place }
{
    found_place(places, code).or(default_place)
}

impl BitmapFont {
    /// A font of these glyphs.
    pub fn new(
        alloc: Global,
        name: Items<u8>,
        ascent: i32,
        descent: i32,
        default_char: Option<i64>,
        glyphs: Items<FontGlyph>,
    ) -> Mem<BitmapFont>
        requires { length glyphs ≤ max_glyphs }
        ensures { IfOk result (λ font. font ≡ bitmap_font name ascent descent default_char glyphs) }
    {
        let places = places_of(alloc, glyphs.as_slice())?;
        let default_place = match default_char {
            Some(-1) => None,
            Some(code) => found_place(places.as_slice(), code),
            None => None,
        };
        Ok(BitmapFont {
            name,
            ascent,
            descent,
            default_char,
            glyphs,
            places,
            default_place,
        })
    }

    /// The font's name.
    pub fn name(&self) -> &[u8]
        ensures { result.now ≡ self.now.name }
    {
        self.name.as_slice()
    }

    /// The height above the baseline, in pixels.
    pub fn ascent(&self) -> i32
        ensures { result ≡ self.now.ascent }
    {
        self.ascent
    }

    /// The depth below the baseline, in pixels.
    pub fn descent(&self) -> i32
        ensures { result ≡ self.now.descent }
    {
        self.descent
    }

    /// The code whose glyph stands in for missing ones.
    pub fn default_char(&self) -> Option<i64>
        ensures { result ≡ self.now.default_char }
    {
        self.default_char
    }

    /// The glyphs, in the order of the text.
    pub fn glyphs(&self) -> &[FontGlyph]
        ensures { result.now ≡ self.now.glyphs }
    {
        self.glyphs.as_slice()
    }

    /// The glyph at a place.
    pub fn glyph_at(&self, g: u32) -> &FontGlyph
        requires { g < length self.now.glyphs }
        ensures { slice_get self.now.glyphs g ≡ Some result.now }
    {
        &self.glyphs.as_slice()[g as usize]
    }

    /// The bar under a line.
    pub fn underline(&self) -> Bar
        ensures { self.now.underline ≡ Some result }
    {
        let _ascent = self.ascent;
        Bar { top: 1, size: 1 }
    }

    /// How much wider bold glyphs are.
    pub fn bold_step(&self) -> i32
        ensures { result ≡ self.now.bold_step }
    {
        let _ascent = self.ascent;
        1
    }

    /// The bar through a line.
    pub fn strikeout(&self) -> Bar
        ensures { self.now.strikeout ≡ Some result }
    {
        Bar {
            top: -self.ascent.div_euclid(2) - 1,
            size: 1,
        }
    }

    /// The place of the first glyph with a character's code.
    pub fn code_place(&self, c: char) -> Option<u32>
        ensures { result ≡ place_of self.now.glyphs (pos c) }
    {
        found_place(self.places.as_slice(), i64::from(u32::from(c)))
    }

    /// The place of a character's glyph.
    pub fn place_of(&self, c: char) -> Option<u32>
        ensures { result ≡ glyph_of self.now c }
    {
        let code = i64::from(u32::from(c));
        place_or(self.places.as_slice(), code, self.default_place)
    }
}
