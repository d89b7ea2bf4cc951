//! The numbers and names of a line.

ghost use Rattle.std.specs.Prelude.{◌≡◌, ◌≤◌, IfSome};
ghost use Rattle.bdf_font.specs.Limits.{max_bitmap_side};
ghost use Rattle.bdf_font.specs.Ranges.{IsOffset, IsBox};
ghost use Rattle.bdf_font.specs.Words.{bitmap_side_of, offset_of, bounding_box_of, family_name_of, quoted};

use crate::glyphs::BoundingBox;
use crate::words::first_word;
use ass_num::{before_blanks, past_blanks, read_whole};

/// The most columns and the most rows of a bitmap.
const MAX_BITMAP_SIDE: i32 = 1_024;

/// The farthest from 0 that an advance or an offset may be.
const MAX_OFFSET: i32 = 4_096;

/// A whole number from 0 to 1,024.
#[tactic(auto, unfolding(crate::specs::Words::bitmap_side_of))]
fn side(word: &[u8]) -> Option<u16>
    ensures value { result ≡ bitmap_side_of word.now }
    ensures small { IfSome result (λ side. side ≤ max_bitmap_side) }
{
    let number = read_whole(word)?;
    if 0 <= number && number <= MAX_BITMAP_SIDE {
        return Some(number as u16);
    }
    None
}

/// A whole number within 4,096 on both sides.
#[tactic(auto, unfolding(crate::specs::Words::offset_of))]
pub fn offset(word: &[u8]) -> Option<i16>
    ensures value { result ≡ offset_of word.now }
    ensures small { IfSome result IsOffset }
{
    let number = read_whole(word)?;
    if -MAX_OFFSET <= number && number <= MAX_OFFSET {
        return Some(number as i16);
    }
    None
}

/// The four numbers of a box.
#[tactic(auto, unfolding(crate::specs::Words::bounding_box_of))]
pub fn bounding_box(text: &[u8]) -> Option<BoundingBox>
    ensures value { result ≡ bounding_box_of text.now }
    ensures small { IfSome result IsBox }
{
    let (w, rest) = first_word(text);
    let (h, rest) = first_word(rest);
    let (x, rest) = first_word(rest);
    let (y, _) = first_word(rest);
    let w = side(w)?;
    let h = side(h)?;
    let x = offset(x)?;
    let y = offset(y)?;
    Some(BoundingBox { w, h, x, y })
}

/// A text up to the next quote, or else all of it but the blanks at its end.
fn quoted(text: &[u8]) -> &[u8]
    ensures { result.now ≡ quoted text.now }
{
    for (i, byte) in text.iter().enumerate() {
        if *byte == b'"' {
            return &text[..i];
        }
    }
    before_blanks(text)
}

/// A text in quotes, or else a word.
#[tactic(auto, unfolding(crate::specs::Words::family_name_of))]
pub fn family_name(text: &[u8]) -> &[u8]
    ensures { result.now ≡ family_name_of text.now }
{
    let text = past_blanks(text);
    if !text.is_empty() && text[0] == b'"' {
        return quoted(&text[1..]);
    }
    first_word(text).0
}
