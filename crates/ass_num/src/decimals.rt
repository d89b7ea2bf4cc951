//! Decimal numbers: thousandths at the front of a text, and whole numbers.

ghost use Rattle.std.specs.Prelude.{◌≡◌, ◌≤◌, IfSome, IfNone};
ghost use Rattle.ass_num.specs.Fronts.{IsLongestFront, HasNoFront};
ghost use Rattle.ass_num.specs.Limits.{IsWithin, max_whole};
ghost use Rattle.ass_num.specs.Numerals.{IsHeldDecimal, IsMilli};
ghost use Rattle.ass_num.specs.Wholes.{whole_of};

use crate::Milli;
use crate::digits::{blanks_before, decimal_digits, fraction_digits, sign};

/// The greatest value that is read, in thousandths.
const MAX_HELD: u64 = 1_000_000_000;

/// The greatest whole number that is read.
const MAX_WHOLE: u64 = 2_147_483_647;

/// The longest front that is a number without a sign: its thousandths, or `MAX_HELD` if that is less,
/// and its length.
fn read_decimal(text: &[u8]) -> Option<(u64, usize)>
    ensures some { IfSome result (λ read. IsLongestFront IsHeldDecimal text.now read.0 read.1) }
    ensures none { IfNone result (HasNoFront IsHeldDecimal text.now) }
    ensures held { IfSome result (λ read. read.0 ≤ MAX_HELD) }
{
    let (whole, digits) = decimal_digits(text);
    if digits < text.len() && text[digits] == b'.' {
        let (fraction, more) = fraction_digits(&text[digits + 1..]);
        if digits + more == 0 {
            return None;
        }
        Some(((whole * 1_000 + fraction).min(MAX_HELD), digits + 1 + more))
    } else if digits == 0 {
        None
    } else {
        Some(((whole * 1_000).min(MAX_HELD), digits))
    }
}

/// The longest front of a text that is a number: its value in thousandths, cut toward zero and
/// held within a million on both sides, and its length.
pub fn read_milli(text: &[u8]) -> Option<(Milli, usize)>
    ensures some { IfSome result (λ read. IsLongestFront IsMilli text.now read.0 read.1) }
    ensures none { IfNone result (HasNoFront IsMilli text.now) }
{
    let (minus, len) = sign(text);
    let (thousandths, digits) = read_decimal(&text[len..])?;
    let value = thousandths as i64;
    Some((if minus { -value } else { value }, len + digits))
}

/// The whole number that a text is between blanks, within 2,147,483,647 on both sides.
pub fn read_whole(text: &[u8]) -> Option<i32>
    ensures value { result ≡ whole_of text.now }
    ensures range { IfSome result (IsWithin max_whole) }
{
    let before = blanks_before(text);
    let (minus, len) = sign(&text[before..]);
    let start = before + len;
    let (number, digits) = decimal_digits(&text[start..]);
    let end = start + digits;
    if digits == 0 || number > MAX_WHOLE || end + blanks_before(&text[end..]) < text.len() {
        return None;
    }
    let whole = number as i32;
    Some(if minus { -whole } else { whole })
}
