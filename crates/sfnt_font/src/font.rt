//! Fonts, and what is found in them.

ghost use Rattle.std.specs.Prelude.{◌≡◌, ◌≤◌};
ghost use Rattle.sfnt_font.specs.Maps.{max_code};
ghost use Rattle.sfnt_font.specs.Fonts.{mapped_glyph, glyph_number, is_symbol_code, symbol_count, place_of_code};
ghost use Rattle.sfnt_font.specs.Ranges.{IsSfntFont};

use crate::characters::{held_glyph, segment_glyph};
use crate::file_bytes::FileBytes;
use crate::maps::CharacterMap;
use crate::names::FontNames;
use crate::numbers::Numbers;
use crate::segments::{Segment, place_in, segment_of};
use crate::tables::Tables;
use ass_num::Items;

/// A font: the bytes of its file, where its tables are, its numbers, its map, the segments of the map, and its names. A
/// glyph is looked at when it is asked for.
#[derive(Debug, Drop)]
pub struct SfntFont {
    pub(crate) bytes: FileBytes,
    pub(crate) tables: Tables,
    pub(crate) numbers: Numbers,
    pub(crate) character_map: CharacterMap,
    pub(crate) segments: Items<Segment>,
    pub(crate) names: FontNames,
}

impl SfntFont {
    /// The bytes of the font's file.
    pub fn bytes(&self) -> &[u8]
        ensures { result.now ≡ self.now.bytes }
    {
        self.bytes.as_slice()
    }

    /// Where the tables of the font are.
    pub fn tables(&self) -> &Tables
        ensures { result.now ≡ self.now.tables }
    {
        &self.tables
    }

    /// The numbers of the font.
    pub fn numbers(&self) -> &Numbers
        ensures { result.now ≡ self.now.numbers }
    {
        &self.numbers
    }

    /// The names of the font.
    pub fn names(&self) -> &FontNames
        ensures { result.now ≡ self.now.names }
    {
        &self.names
    }

    /// The glyph that the map gives a code, or else 0.
    fn mapped_glyph(&self, code: u32) -> u16
        requires font { IsSfntFont self.now }
        requires code { code ≤ max_code }
        ensures { result ≡ mapped_glyph self.now code }
    {
        match segment_of(self.segments.as_slice(), code) {
            Some(k) => held_glyph(
                self.numbers.glyphs,
                segment_glyph(self.bytes(), self.character_map, k, code),
            ),
            None => 0,
        }
    }

    /// Whether a code is looked up among the symbols too.
    fn is_symbol_code(&self, code: u32) -> bool
        ensures { result ≡ is_symbol_code self.now code }
    {
        self.character_map.is_symbol && code < 256
    }

    /// The glyph of a code; 0 is that of missing characters.
    pub fn glyph_number(&self, code: u32) -> u16
        requires font { IsSfntFont self.now }
        requires code { code ≤ max_code }
        ensures { result ≡ glyph_number self.now code }
    {
        let glyph = self.mapped_glyph(code);
        if glyph == 0 && self.is_symbol_code(code) {
            return self.mapped_glyph(61_440 + code);
        }
        glyph
    }

    /// How many codes stand before those of the segments.
    pub(crate) fn symbol_count(&self) -> u32
        ensures value { result ≡ symbol_count self.now }
        ensures most { result ≤ 256 }
    {
        if self.character_map.is_symbol { 256 } else { 0 }
    }

    /// The place of a code's glyph among the glyphs of the font, which are one for each code of its map in ascending
    /// order, behind one for each code below 256 where the map is one of symbols.
    pub fn place_of(&self, code: u32) -> Option<u32>
        requires font { IsSfntFont self.now }
        requires code { code ≤ max_code }
        ensures { result ≡ place_of_code self.now code }
    {
        if self.is_symbol_code(code) {
            return Some(code);
        }
        let segments = self.segments.as_slice();
        match segment_of(segments, code) {
            Some(k) => Some(self.symbol_count() + place_in(&segments[k], code)),
            None => None,
        }
    }
}
