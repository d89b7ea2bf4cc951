//! The subroutines that the charstring of a glyph may call.

ghost use Rattle.std.specs.Prelude.{◌≡◌, ◌≤◌, ◌<◌, IfSome};
ghost use Rattle.ass_num.specs.Limits.{max_file_bytes};
ghost use Rattle.cff_font.specs.Ranges.{IsCffFont, IsFileIndex, IsFileSpan};
ghost use Rattle.cff_font.specs.Subroutines.{dict_by_ranges, dict_number, glyph_dict, private_dict, private_subroutines, dict_subroutines, local_subroutines};

use crate::dicts::{Operands, operands_of};
use crate::indexes::{Index, index_at, item_at, no_items};
use crate::read::{CffFont, place_by_offset};
use crate::tokens::Span;
use font_bytes::{u8_at, u16_at};

/// The operator of a font DICT that names the Private DICT.
const PRIVATE: u16 = 18;

/// The operator of a Private DICT that names the subroutines.
const SUBROUTINES: u16 = 19;

/// The number of the font DICT of glyph g by the first of n ranges that has it, which end before `stop`.
fn dict_by_ranges(bytes: &[u8], stop: usize, select: usize, n: usize, g: u16) -> Option<usize>
    requires select { select ≤ max_file_bytes }
    requires n { n ≤ 65535 }
    ensures { result ≡ dict_by_ranges bytes.now stop select n g }
{
    if stop < select + 5 + 3 * n {
        return None;
    }
    for k in 0..n {
        let at = select + 3 + 3 * k;
        if u16_at(bytes, at) <= g && g < u16_at(bytes, at + 3) {
            return Some(usize::from(u8_at(bytes, at + 2)));
        }
    }
    None
}

/// The number of the font DICT of glyph g, by FDSelect at a place.
fn dict_number(bytes: &[u8], stop: usize, select: usize, g: u16) -> Option<usize>
    requires { select ≤ max_file_bytes }
    ensures { result ≡ dict_number bytes.now stop select g }
{
    let listed = select + 1 + usize::from(g);
    match u8_at(bytes, select) {
        0 if listed < stop => Some(usize::from(u8_at(bytes, listed))),
        3 => dict_by_ranges(
            bytes,
            stop,
            select,
            usize::from(u16_at(bytes, select + 1)),
            g,
        ),
        _ => None,
    }
}

/// The font DICT of glyph g.
pub fn glyph_dict(bytes: &[u8], font: &CffFont, g: u16) -> Option<Span>
    requires { IsCffFont font.now }
    ensures value { result ≡ glyph_dict bytes.now font.now g font.now.dicts }
    ensures within { IfSome result IsFileSpan }
{
    match font.dicts {
        None => Some(font.top),
        Some(dicts) => match dict_number(bytes, font.stop, dicts.select, g) {
            Some(k) => item_at(bytes, &dicts.dicts, k),
            None => None,
        },
    }
}

/// The Private DICT whose size and place these are.
fn private_dict(font: &CffFont, operands: Operands) -> Option<Span>
    requires { IsCffFont font.now }
    ensures value { result ≡ private_dict font.now operands }
    ensures within { IfSome result IsFileSpan }
{
    let from = place_by_offset(font.stop, font.place, operands.last)?;
    let to = place_by_offset(font.stop, from, operands.before)?;
    Some(Span { from, to })
}

/// The subroutines that a Private DICT names.
fn private_subroutines(bytes: &[u8], font: &CffFont, dict: Span) -> Option<Index>
    requires font { IsCffFont font.now }
    requires dict { IsFileSpan dict }
    ensures value { result ≡ private_subroutines bytes.now font.now dict }
    ensures within { IfSome result IsFileIndex }
{
    match operands_of(bytes, dict, SUBROUTINES) {
        None => Some(no_items(0)),
        Some(operands) => match place_by_offset(font.stop, dict.from, operands.last) {
            Some(at) => index_at(bytes, font.stop, at),
            None => None,
        },
    }
}

/// The subroutines of the Private DICT that a font DICT names.
fn dict_subroutines(bytes: &[u8], font: &CffFont, operands: Option<Operands>) -> Option<Index>
    requires { IsCffFont font.now }
    ensures value { result ≡ dict_subroutines bytes.now font.now operands }
    ensures within { IfSome result IsFileIndex }
{
    match operands {
        None => Some(no_items(0)),
        Some(operands) if operands.before == 0 => Some(no_items(0)),
        Some(operands) => match private_dict(font, operands) {
            Some(dict) => private_subroutines(bytes, font, dict),
            None => None,
        },
    }
}

/// The subroutines of glyph g alone.
pub fn local_subroutines(bytes: &[u8], font: &CffFont, g: u16) -> Option<Index>
    requires { IsCffFont font.now }
    ensures value { result ≡ local_subroutines bytes.now font.now g }
    ensures within { IfSome result IsFileIndex }
{
    match glyph_dict(bytes, font, g) {
        Some(dict) => dict_subroutines(bytes, font, operands_of(bytes, dict, PRIVATE)),
        None => None,
    }
}
