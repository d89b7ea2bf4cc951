//! Colours and alphas as scripts write them.

ghost use Rattle.std.specs.Prelude.{◌≡◌, ℕ, IfSome, IfNone};
ghost use Rattle.ass_num.specs.Colours.{colour_of};
ghost use Rattle.ass_num.specs.Fronts.{IsLongestFront, BeginsWith, HasNoFront};
ghost use Rattle.ass_num.specs.Numerals.{IsColour, IsAlpha, IsWrapped, IsStyleColour, is_hex_start};

use crate::Rgba;
use crate::digits::{blanks_before, low_digits, marks, sign};

/// The longest front that is a colour, with its length.
fn colour_front(text: &[u8]) -> Option<(u32, usize)>
    ensures some { IfSome result (λ read. IsLongestFront IsColour text.now read.0 read.1) }
    ensures none { IfNone result (HasNoFront IsColour text.now) }
{
    let before = marks(text);
    let (number, digits) = low_digits(&text[before..], 16);
    if digits == 0 {
        None
    } else {
        Some((number, before + digits))
    }
}

/// The colour of a number: alpha, blue, green and red from the highest byte down.
pub fn colour_of(number: u32) -> Rgba
    ensures { result ≡ colour_of number }
{
    Rgba {
        r: (number % 256) as u8,
        g: (number / 256 % 256) as u8,
        b: (number / 65_536 % 256) as u8,
        a: (number / 16_777_216 % 256) as u8,
    }
}

/// Whether the text begins with `&H` or `&h`.
fn is_hex_start(text: &[u8]) -> bool
    ensures { result ≡ is_hex_start text.now }
{
    matches!(text, [b'&', b'H' | b'h', ..])
}

/// The longest front that is a decimal number modulo 2^32, with its length.
fn wrapped_front(text: &[u8]) -> Option<(u32, usize)>
    ensures some { IfSome result (λ read. IsLongestFront IsWrapped text.now read.0 read.1) }
    ensures none { IfNone result (HasNoFront IsWrapped text.now) }
{
    let (minus, len) = sign(text);
    let (number, digits) = low_digits(&text[len..], 10);
    if digits == 0 {
        return None;
    }
    let low = if minus { number.wrapping_neg() } else { number };
    Some((low, len + digits))
}

/// The colour at the front of a text: any of `&`, `H`, `h` and blanks_before, then hexadecimal digits.
/// The bytes from the top are alpha, blue, green and red; of longer numbers the low 32 bits count.
pub fn read_colour(text: &[u8]) -> Option<u32>
    ensures some { IfSome result (BeginsWith IsColour text.now) }
    ensures none { IfNone result (HasNoFront IsColour text.now) }
{
    let (colour, _len) = colour_front(text)?;
    Some(colour)
}

/// The alpha at the front of a text: the low byte of what is written like a colour.
pub fn read_alpha(text: &[u8]) -> Option<u8>
    ensures some { IfSome result (BeginsWith IsAlpha text.now) }
    ensures none { IfNone result (HasNoFront IsAlpha text.now) }
{
    let colour = read_colour(text)?;
    Some((colour & 0xff) as u8)
}

/// The colour of a style: behind blanks a colour that begins with `&H` or `&h`, or else a decimal
/// number modulo 2^32.
pub fn read_style_colour(text: &[u8]) -> Option<u32>
    ensures some { IfSome result (BeginsWith IsStyleColour text.now) }
    ensures none { IfNone result (HasNoFront IsStyleColour text.now) }
{
    let code = &text[blanks_before(text)..];
    let (colour, _len) = if is_hex_start(code) {
        colour_front(code)?
    } else {
        wrapped_front(code)?
    };
    Some(colour)
}
