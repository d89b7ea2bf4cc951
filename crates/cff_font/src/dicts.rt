//! DICTs: lists of operators, each behind its operands.

ghost use Rattle.std.specs.Prelude.{◌≡◌, ◌<◌, ◌-◌, ◌^◌};
ghost use Rattle.cff_font.specs.Dicts.{ends_real, behind_real, dict_token_of, dict_token, no_operands, operands_of};
ghost use Rattle.cff_font.specs.Ranges.{IsFileSpan};

use crate::tokens::{Span, Token, number_before, operator_at, s32_at, whole_number};
use font_bytes::u8_at;

/// Where the operands of an operator begin, and the last two of them.
#[derive(Clone, Copy)]
pub struct Operands {
    pub from: usize,
    pub before: i64,
    pub last: i64,
}

/// Whether a byte is the last of a real number.
fn ends_real(b: u8) -> bool
    ensures { result ≡ ends_real b }
{
    b >= 240 || b % 16 == 15
}

/// The place behind a real number whose bytes go on at a place of a DICT that ends at `stop`.
fn behind_real(bytes: &[u8], stop: usize, at: usize) -> Option<usize>
    requires { stop < 2 ^ 39 }
    ensures { result ≡ behind_real bytes.now (stop - at) at }
{
    for i in at..stop {
        if ends_real(u8_at(bytes, i)) {
            return Some(i + 1);
        }
    }
    None
}

/// The number or operator at a place of a DICT, whose first byte is b.
fn dict_token_of(bytes: &[u8], stop: usize, at: usize, b: u8) -> Option<Token>
    requires stop { stop < 2 ^ 38 }
    requires at { at < stop }
    ensures { result ≡ dict_token_of bytes.now stop at b }
{
    if b < 22 {
        return operator_at(bytes, stop, at, b);
    }
    if b == 29 {
        return number_before(stop, at + 5, s32_at(bytes, at + 1));
    }
    if b == 30 {
        return match behind_real(bytes, stop, at + 1) {
            Some(behind) => Some(Token::Number(0, behind)),
            None => None,
        };
    }
    whole_number(bytes, stop, at, b)
}

/// The number or operator at a place of a DICT that ends at `stop`.
pub fn dict_token(bytes: &[u8], stop: usize, at: usize) -> Option<Token>
    requires { stop < 2 ^ 38 }
    ensures { result ≡ dict_token bytes.now stop at }
{
    if stop <= at {
        return None;
    }
    dict_token_of(bytes, stop, at, u8_at(bytes, at))
}

/// No operands yet, from a place on.
fn no_operands(from: usize) -> Operands
    ensures { result ≡ no_operands from }
{
    Operands {
        from,
        before: 0,
        last: 0,
    }
}

/// Where the operands of the first operator of this kind begin, and the last two of them, 0 for a missing one.
pub fn operands_of(bytes: &[u8], dict: Span, code: u16) -> Option<Operands>
    requires { IsFileSpan dict }
    ensures { result ≡ operands_of bytes.now dict code }
{
    let mut at = dict.from;
    let mut operands = no_operands(at);
    for _k in dict.from..dict.to {
        match dict_token(bytes, dict.to, at)? {
            Token::Number(value, behind) => {
                operands = Operands {
                    from: operands.from,
                    before: operands.last,
                    last: value,
                };
                at = behind;
            }
            Token::Operator(other, behind) => {
                if other == code {
                    return Some(operands);
                }
                operands = no_operands(behind);
                at = behind;
            }
        }
    }
    None
}
