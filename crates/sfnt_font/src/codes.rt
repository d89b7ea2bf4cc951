//! The codes of a font's glyphs, in the order of its list of glyphs.

ghost use Rattle.std.specs.Prelude.{◌≡◌, ◌+◌, ◌≤◌, length, slice_index_or, true, pos, ◌≤ℤ◌};
ghost use Rattle.sfnt_font.specs.Maps.{max_code, codes_to};
ghost use Rattle.sfnt_font.specs.Ranges.{are_in_order, IsSfntFont};
ghost use Rattle.sfnt_font.specs.Codes.{codes_of, missing_code, font_codes, max_codes, code_of_place, glyph_of_code};

use crate::font::SfntFont;
use crate::segments::Segment;

/// The code of the glyph of missing characters.
const MISSING_CODE: i64 = -2;

/// How many codes there are up to the end of a segment.
fn codes_to(segment: &Segment) -> u64
    ensures { result ≡ codes_to segment.now }
{
    let behind = u64::from(segment.last) + 1;
    u64::from(segment.before) + behind.saturating_sub(u64::from(segment.first))
}

/// How many codes segments have.
fn code_count(segments: &[Segment]) -> u64
    requires { are_in_order 0 0 segments.now ≡ true }
    ensures value { result ≡ length (codes_of segments.now) }
    ensures most { result ≤ max_code + 1 }
{
    match segments.last() {
        Some(segment) => codes_to(segment),
        None => 0,
    }
}

/// The code at a place among those of segments; behind them that of missing characters.
fn code_in(segments: &[Segment], at: u32) -> i64
    requires { are_in_order 0 0 segments.now ≡ true }
    ensures value { result ≡ slice_index_or (codes_of segments.now) at missing_code }
    ensures most { result ≤ℤ pos max_code }
{
    let k = segments.partition_point(|segment| codes_to(segment) <= u64::from(at));
    if k == segments.len() {
        return MISSING_CODE;
    }
    let segment = &segments[k];
    i64::from(segment.first + at.saturating_sub(segment.before))
}

impl SfntFont {
    /// How many glyphs the font's list has: one for each code of its map in ascending order, and at the end that of
    /// missing characters. A map of symbols has all codes below 256 before them.
    pub fn glyph_count(&self) -> u32
        requires { IsSfntFont self.now }
        ensures value { result ≡ length (font_codes self.now) }
        ensures most { result ≤ max_codes }
    {
        self.symbol_count() + code_count(self.segments.as_slice()) as u32 + 1
    }

    /// The code of the glyph at a place of the list; the last one's is -2.
    pub fn code_at(&self, place: u32) -> i64
        requires { IsSfntFont self.now }
        ensures value { result ≡ code_of_place self.now place }
        ensures most { result ≤ℤ pos max_code }
    {
        let symbols = self.symbol_count();
        if place < symbols {
            return i64::from(place);
        }
        code_in(self.segments.as_slice(), place - symbols)
    }

    /// The number of the glyph of a code of the list.
    fn glyph_of_code(&self, code: i64) -> u16
        requires font { IsSfntFont self.now }
        requires code { code ≤ℤ pos max_code }
        ensures { result ≡ glyph_of_code self.now code }
    {
        if code < 0 {
            return 0;
        }
        self.glyph_number(code as u32)
    }

    /// The number of the glyph at a place of the list; the last one's is 0.
    pub fn glyph_at(&self, place: u32) -> u16
        requires { IsSfntFont self.now }
        ensures { result ≡ glyph_of_code self.now (code_of_place self.now place) }
    {
        self.glyph_of_code(self.code_at(place))
    }
}
