//! The numbers and operators that DICTs and charstrings are made of.

ghost use Rattle.std.specs.Prelude.{◌≡◌, ◌<◌, ◌≤◌, ◌+◌, ◌^◌, pos, IfSome};
ghost use Rattle.font_bytes.specs.Bytes.{IsPlace};
ghost use Rattle.ass_num.specs.Limits.{IsWithin};
ghost use Rattle.cff_font.specs.Tokens.{s32_at, number_before, two_byte_number, whole_number, operator_at, behind_token, max_short, IsShortToken};

use font_bytes::{s16_at, u8_at, u32_at};

/// The operators of two bytes, of which the first is 12, are numbered from here on.
const ESCAPE_BASE: u16 = 3_072;

/// The bytes from one place up to another.
#[derive(Clone, Copy, Debug)]
pub struct Span {
    pub from: usize,
    pub to: usize,
}

/// A number or an operator, and the place behind it.
#[derive(Clone, Copy)]
pub enum Token {
    Number(i64, usize),
    Operator(u16, usize),
}

/// The number of four bytes, whose first bit is the sign.
pub fn s32_at(bytes: &[u8], i: usize) -> i64
    requires { IsPlace i }
    ensures { result ≡ s32_at bytes.now i }
{
    let number = i64::from(u32_at(bytes, i));
    if number < 2_147_483_648 {
        number
    } else {
        number - 4_294_967_296
    }
}

/// A number that ends before `behind`, if its bytes are all before `stop`.
pub fn number_before(stop: usize, behind: usize, value: i64) -> Option<Token>
    ensures value { result ≡ number_before stop behind value }
    ensures short { IsWithin max_short value → IfSome result IsShortToken }
{
    if stop < behind {
        return None;
    }
    Some(Token::Number(value, behind))
}

/// The number of a byte b, which is `first` or more, and the one behind it.
fn two_byte_number(first: u8, b: u8, low: u8) -> i64
    requires first { first ≤ b }
    requires few { b ≤ first + 3 }
    ensures value { result ≡ pos (two_byte_number first b low) }
    ensures short { IsWithin max_short result }
{
    i64::from(u32::from(b - first) * 256 + u32::from(low) + 108)
}

/// The whole number at a place, whose first byte is b.
pub fn whole_number(bytes: &[u8], stop: usize, at: usize, b: u8) -> Option<Token>
    requires { at < 2 ^ 39 }
    ensures value { result ≡ whole_number bytes.now stop at b }
    ensures short { IfSome result IsShortToken }
{
    if b == 28 {
        return number_before(stop, at + 3, i64::from(s16_at(bytes, at + 1)));
    }
    if b < 32 {
        return None;
    }
    if b < 247 {
        return number_before(stop, at + 1, i64::from(b) - 139);
    }
    let low = u8_at(bytes, at + 1);
    if b < 251 {
        return number_before(stop, at + 2, two_byte_number(247, b, low));
    }
    if b < 255 {
        return number_before(stop, at + 2, -two_byte_number(251, b, low));
    }
    None
}

/// The operator at a place, whose first byte is b.
pub fn operator_at(bytes: &[u8], stop: usize, at: usize, b: u8) -> Option<Token>
    requires { at < 2 ^ 39 }
    ensures { result ≡ operator_at bytes.now stop at b }
{
    if b != 12 {
        return Some(Token::Operator(u16::from(b), at + 1));
    }
    if stop < at + 2 {
        return None;
    }
    let code = ESCAPE_BASE + u16::from(u8_at(bytes, at + 1));
    Some(Token::Operator(code, at + 2))
}

impl Token {
    /// The place behind it.
    pub fn behind(&self) -> usize
        ensures { result ≡ behind_token self.now }
    {
        match self {
            Token::Number(_, behind) => *behind,
            Token::Operator(_, behind) => *behind,
        }
    }
}
