//! The reading of a table.

ghost use Rattle.std.specs.Prelude.{◌≡◌, ◌≤◌, IfOk, IfSome};
ghost use Rattle.ass_num.specs.Limits.{max_file_bytes};
ghost use Rattle.cff_font.specs.Fonts.{place_by_offset, place_named, needed_index, is_type_2, needed_place, dicts_at, font_of_dict, font_behind, cff_of};
ghost use Rattle.cff_font.specs.Ranges.{AreDicts, IsCffFont, IsFileIndex, IsFileSpan};

use crate::cause::{CffCause, CffRefusal};
use crate::dicts::{Operands, operands_of};
use crate::indexes::{Index, index_at, item_at};
use crate::tokens::Span;
use font_bytes::u8_at;

/// Operators of a Top DICT.
const GLYPHS: u16 = 17;

const TYPE: u16 = 3_078;

const DICTS: u16 = 3_108;

const SELECT: u16 = 3_109;

/// A list of font DICTs, and where the one of each glyph is chosen.
#[derive(Clone, Copy, Debug)]
pub struct FontDicts {
    pub dicts: Index,
    pub select: usize,
}

/// Where the parts of a table of PostScript outlines are.
#[derive(Clone, Copy, Debug)]
pub struct CffFont {
    /// Where the table begins.
    pub place: usize,
    /// Where it ends.
    pub stop: usize,
    /// The subroutines of all glyphs.
    pub globals: Index,
    /// The charstrings of the glyphs.
    pub glyphs: Index,
    /// The Top DICT.
    pub top: Span,
    /// The font DICTs, where glyphs have different ones.
    pub dicts: Option<FontDicts>,
}

/// The place that an offset from another place names, if it doesn't lie behind `stop`.
pub fn place_by_offset(stop: usize, from: usize, offset: i64) -> Option<usize>
    requires stop { stop ≤ max_file_bytes }
    requires from { from ≤ max_file_bytes }
    ensures value { result ≡ place_by_offset stop from offset }
    ensures within { IfSome result (λ place. (from ≤ place) × (place ≤ max_file_bytes)) }
{
    if offset < 1 {
        return None;
    }
    let place = from + offset.unsigned_abs() as usize;
    if place <= stop {
        return Some(place);
    }
    None
}

/// The place in a table that an operator of the Top DICT names.
fn place_named(bytes: &[u8], table: Span, top: Span, code: u16) -> Option<usize>
    requires table { IsFileSpan table }
    requires top { IsFileSpan top }
    ensures value { result ≡ place_named bytes.now table top code }
    ensures within { IfSome result (λ place. place ≤ max_file_bytes) }
{
    match operands_of(bytes, top, code) {
        Some(operands) => place_by_offset(table.to, table.from, operands.last),
        None => None,
    }
}

fn refusal_at(place: usize, cause: CffCause) -> CffRefusal
    ensures { result ≡ record { place = place; cause = cause } }
{
    CffRefusal { place, cause }
}

fn needed_index(bytes: &[u8], stop: usize, at: usize) -> Result<Index, CffRefusal>
    requires stop { stop ≤ max_file_bytes }
    requires at { at ≤ max_file_bytes }
    ensures value { result ≡ needed_index bytes.now stop at }
    ensures within { IfOk result IsFileIndex }
{
    match index_at(bytes, stop, at) {
        Some(index) => Ok(index),
        None => Err(refusal_at(at, CffCause::BadIndex)),
    }
}

/// Whether charstrings are of type 2.
fn is_type_2(operands: Option<Operands>) -> bool
    ensures { result ≡ is_type_2 operands }
{
    match operands {
        Some(operands) => operands.last == 2,
        None => true,
    }
}

/// The place that the Top DICT names, which is needed.
fn needed_place(bytes: &[u8], table: Span, top: Span, code: u16) -> Result<usize, CffRefusal>
    requires table { IsFileSpan table }
    requires top { IsFileSpan top }
    ensures value { result ≡ needed_place bytes.now table top code }
    ensures within { IfOk result (λ place. place ≤ max_file_bytes) }
{
    match place_named(bytes, table, top, code) {
        Some(at) => Ok(at),
        None => Err(refusal_at(top.from, CffCause::BadDict)),
    }
}

/// The font DICTs at a place, if any, with the place of FDSelect.
fn dicts_at(
    bytes: &[u8],
    table: Span,
    top: Span,
    place: Option<usize>,
) -> Result<Option<FontDicts>, CffRefusal>
    requires table { IsFileSpan table }
    requires top { IsFileSpan top }
    requires place { IfSome place (λ at. at ≤ max_file_bytes) }
    ensures value { result ≡ dicts_at bytes.now table top place }
    ensures within { IfOk result (λ found. IfSome found AreDicts) }
{
    let at = match place {
        Some(at) => at,
        None => return Ok(None),
    };
    let dicts = needed_index(bytes, table.to, at)?;
    let select = needed_place(bytes, table, top, SELECT)?;
    Ok(Some(FontDicts { dicts, select }))
}

/// The font whose Top DICT this is.
fn font_of_dict(bytes: &[u8], table: Span, globals: Index, top: Span) -> Result<CffFont, CffRefusal>
    requires table { IsFileSpan table }
    requires globals { IsFileIndex globals }
    requires top { IsFileSpan top }
    ensures value { result ≡ font_of_dict bytes.now table globals top }
    ensures within { IfOk result IsCffFont }
{
    if !is_type_2(operands_of(bytes, top, TYPE)) {
        return Err(refusal_at(top.from, CffCause::BadDict));
    }
    let at = needed_place(bytes, table, top, GLYPHS)?;
    let glyphs = needed_index(bytes, table.to, at)?;
    let place = place_named(bytes, table, top, DICTS);
    let dicts = dicts_at(bytes, table, top, place)?;
    Ok(CffFont {
        place: table.from,
        stop: table.to,
        globals,
        glyphs,
        top,
        dicts,
    })
}

/// The font whose four INDEXes begin at a place.
fn font_behind(bytes: &[u8], table: Span, at: usize) -> Result<CffFont, CffRefusal>
    requires table { IsFileSpan table }
    requires at { at ≤ max_file_bytes }
    ensures value { result ≡ font_behind bytes.now table at }
    ensures within { IfOk result IsCffFont }
{
    let stop = table.to;
    let names = needed_index(bytes, stop, at)?;
    let tops = needed_index(bytes, stop, names.end)?;
    let strings = needed_index(bytes, stop, tops.end)?;
    let globals = needed_index(bytes, stop, strings.end)?;
    match item_at(bytes, &tops, 0) {
        Some(top) => font_of_dict(bytes, table, globals, top),
        None => Err(refusal_at(names.end, CffCause::BadDict)),
    }
}

/// The font that a table of a file has, or its first fault (Adobe Technical Note 5176). It looks at no glyph, and takes
/// no memory.
pub fn read_cff(bytes: &[u8], table: Span) -> Result<CffFont, CffRefusal>
    requires table { IsFileSpan table }
    ensures value { result ≡ cff_of bytes.now table }
    ensures within { IfOk result IsCffFont }
{
    let from = table.from;
    if table.to < from + 4 {
        return Err(refusal_at(from, CffCause::Short));
    }
    if u8_at(bytes, from) != 1 {
        return Err(refusal_at(from, CffCause::Version));
    }
    let behind = from + usize::from(u8_at(bytes, from + 2));
    if table.to < behind {
        return Err(refusal_at(from, CffCause::Short));
    }
    font_behind(bytes, table, behind)
}
