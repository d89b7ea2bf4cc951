//! Sets of fonts: which font a name finds, and which glyph a character.

ghost use Rattle.std.specs.Prelude.{◌≡◌, ◌<◌, ◌≤◌, length, IfSome};
ghost use Rattle.bdf_font.specs.Limits.{max_fonts};
ghost use Rattle.bdf_font.specs.Sets.{candidate_at, font_chosen, glyph_elsewhere, has_outlines, mapped_from, mapped_place, name_distance, nearer};
ghost use Rattle.bdf_font.specs.Sets.{IsGlyphPlaceIn, nearest_from, glyph_place_in, set_glyph_of, style_distance};

use crate::font::{Font, REGULAR, glyph};
use ass_num::Items;

/// The weight of bold letters.
const BOLD: u16 = 700;

/// The slant of oblique letters.
const OBLIQUE: u16 = 110;

/// The slant that is wanted of italic letters.
const ITALIC: u16 = 100;

/// Fonts, of which there are from 1 to 64.
#[derive(Debug, Drop)]
pub struct FontSet {
    pub fonts: Items<Font>,
}

/// A font that answers to a name: its place, and how far it is from what is asked for.
#[derive(Clone, Copy, Debug)]
pub struct Candidate {
    pub place: u32,
    pub distance: u32,
}

/// Where a glyph is: the place of its font in the set, and its own in the font.
#[derive(Clone, Copy, Debug, PartialEq, Eq)]
pub struct GlyphPlace {
    pub font: u32,
    pub glyph: u32,
}

/// How far a font is from the weight and the slant that are wanted.
fn style_distance(bold: bool, italic: bool, font: &Font) -> u32
    ensures { result ≡ style_distance bold italic font.now }
{
    let weight: u16 = if bold { BOLD } else { REGULAR };
    let slant: u16 = if font.is_slanted() { OBLIQUE } else { 0 };
    let wanted: u16 = if italic { ITALIC } else { 0 };
    u32::from(font.weight().abs_diff(weight)) + u32::from(slant.abs_diff(wanted))
}

/// How far a font is from what is asked for: one of the family by its weight and its slant, any other with this full
/// name not at all.
fn name_distance(name: &str, bold: bool, italic: bool, font: &Font) -> Option<u32>
    ensures { result ≡ name_distance name.now bold italic font.now }
{
    if font.is_of_family(name) {
        return Some(style_distance(bold, italic, font));
    }
    if font.has_full_name(name) {
        Some(0)
    } else {
        None
    }
}

/// The font at a place, if it answers to the name.
fn candidate_at(name: &str, bold: bool, italic: bool, place: u32, font: &Font) -> Option<Candidate>
    ensures { result ≡ candidate_at name.now bold italic place font.now }
{
    match name_distance(name, bold, italic, font) {
        Some(distance) => Some(Candidate { place, distance }),
        None => None,
    }
}

/// The nearer of two; of two as near as one another the first.
fn nearer(first: Option<Candidate>, second: Option<Candidate>) -> Option<Candidate>
    ensures { result ≡ nearer first second }
{
    match (first, second) {
        (None, _) => second,
        (_, None) => first,
        (Some(a), Some(b)) => {
            if b.distance < a.distance {
                Some(b)
            } else {
                Some(a)
            }
        }
    }
}

/// The nearest of the fonts that answer to a name.
fn nearest(set: &FontSet, name: &str, bold: bool, italic: bool) -> Option<Candidate>
    requires { length set.now.fonts ≤ max_fonts }
    ensures { result ≡ nearest_from name.now bold italic 0 set.now.fonts }
{
    let mut best = None;
    for (place, font) in set.fonts.as_slice().iter().enumerate() {
        best = nearer(best, candidate_at(name, bold, italic, place as u32, font));
    }
    best
}

/// The place of the font that a name finds, without regard to ASCII case: of those of the family the one whose weight and
/// slant are nearest to what is wanted, the first of those as near as one another, where one with this full name alone is
/// as near as can be; or else 0. A leading `@`, which asks for vertical writing, is passed over by TrueType fonts.
pub fn find_font(set: &FontSet, name: &str, bold: bool, italic: bool) -> u32
    requires { length set.now.fonts ≤ max_fonts }
    ensures place { result ≡ font_chosen name.now bold italic set.now.fonts }
    ensures within { 0 < length set.now.fonts → result < length set.now.fonts }
{
    match nearest(set, name, bold, italic) {
        Some(candidate) => candidate.place,
        None => 0,
    }
}

/// The place of the glyph that a font has for a character itself.
fn mapped_place(font: &Font, c: char) -> Option<u32>
    ensures value { result ≡ mapped_place font.now c }
    ensures within { IfSome result (λ place. place < length font.now.glyphs) }
{
    match font.code_place(c) {
        Some(place) if !font.is_missing_at(place) => Some(place),
        _ => None,
    }
}

/// Whether a font of a set has outlines.
fn has_outlines(set: &FontSet) -> bool
    ensures { result ≡ has_outlines set.now.fonts }
{
    for font in set.fonts.as_slice() {
        if font.is_outline() {
            return true;
        }
    }
    false
}

/// The glyph of the first font that has one for a character itself.
fn mapped_glyph(set: &FontSet, c: char) -> Option<GlyphPlace>
    requires { length set.now.fonts ≤ max_fonts }
    ensures { result ≡ mapped_from c 0 set.now.fonts }
{
    for (number, font) in set.fonts.as_slice().iter().enumerate() {
        if let Some(glyph) = mapped_place(font, c) {
            return Some(GlyphPlace {
                font: number as u32,
                glyph,
            });
        }
    }
    None
}

/// The glyph of another font of a set with a font of outlines.
fn glyph_elsewhere(set: &FontSet, c: char) -> Option<GlyphPlace>
    requires { length set.now.fonts ≤ max_fonts }
    ensures { result ≡ glyph_elsewhere set.now.fonts c }
{
    if has_outlines(set) {
        mapped_glyph(set, c)
    } else {
        None
    }
}

/// A place of a font's glyph among those of a set.
fn glyph_place_in(number: u32, found: Option<u32>) -> Option<GlyphPlace>
    ensures { result ≡ glyph_place_in number found }
{
    match found {
        Some(glyph) => Some(GlyphPlace {
            font: number,
            glyph,
        }),
        None => None,
    }
}

/// The glyph of a character in the font with this number: the one that the font has for it itself; or else, in a set with
/// a TrueType font, that of the first font that has one for it; or else the one that the font draws for missing
/// characters.
pub fn set_glyph(set: &FontSet, number: u32, c: char) -> Option<GlyphPlace>
    requires few { length set.now.fonts ≤ max_fonts }
    requires number { number < length set.now.fonts }
    ensures place { result ≡ set_glyph_of set.now.fonts number c }
    ensures within { IfSome result (IsGlyphPlaceIn set.now.fonts) }
{
    let font = &set.fonts.as_slice()[number as usize];
    if let Some(place) = mapped_place(font, c) {
        return glyph_place_in(number, Some(place));
    }
    match glyph_elsewhere(set, c) {
        Some(found) => Some(found),
        None => glyph_place_in(number, glyph(font, c)),
    }
}
