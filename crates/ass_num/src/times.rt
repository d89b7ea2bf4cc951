//! Times as scripts write them.

ghost use Rattle.std.specs.Prelude.{◌≡◌, ℕ, ℤ, false, ◌+◌, ◌<◌, ◌≤◌, length, IfSome, IfNone};
ghost use Rattle.ass_num.specs.Numerals.{is_decimal, IsTimeField, IsTime};

use crate::digits::{blanks_before, decimal_digits};

/// One to six digits and the byte behind them: their number, and the length of all.
fn time_field(text: &[u8], mark: u8) -> Option<(u64, usize)>
    requires { is_decimal mark ≡ false }
    ensures some { IfSome result (λ field. IsTimeField mark text.now field.0 field.1) }
    ensures small { IfSome result (λ field. field.0 < 1000000) }
    ensures within { IfSome result (λ field. field.1 ≤ length text.now) }
    ensures none { IfNone result ((number len : ℕ) → IsTimeField mark text.now number len → ⊥) }
{
    let (number, digits) = decimal_digits(text);
    if digits == 0 || digits > 6 || digits == text.len() || text[digits] != mark {
        return None;
    }
    Some((number, digits + 1))
}

/// The time in milliseconds that is all of a text but blanks: hours, minutes, seconds and
/// hundredths, as `h:m:s.c`, each of one to six digits.
pub fn read_time(text: &[u8]) -> Option<i64>
    ensures some { IfSome result (IsTime text.now) }
    ensures none { IfNone result ((time : ℤ) → IsTime text.now time → ⊥) }
{
    let start = blanks_before(text);
    let (hours, len) = time_field(&text[start..], b':')?;
    let start = start + len;
    let (minutes, len) = time_field(&text[start..], b':')?;
    let start = start + len;
    let (seconds, len) = time_field(&text[start..], b'.')?;
    let start = start + len;
    let (hundredths, digits) = decimal_digits(&text[start..]);
    let end = start + digits;
    if digits == 0 || digits > 6 || end + blanks_before(&text[end..]) < text.len() {
        return None;
    }
    let seconds = (hours * 60 + minutes) * 60 + seconds;
    Some((seconds * 1_000 + hundredths * 10) as i64)
}
