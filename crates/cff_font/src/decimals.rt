//! The matrix of a DICT, in 10^-15.

ghost use Rattle.std.specs.Prelude.{◌≡◌, ◌<◌, ◌≤◌, ◌*◌, ◌^◌, IfSome, true};
ghost use Rattle.ass_num.specs.Limits.{IsWithin};
ghost use Rattle.cff_font.specs.Matrices.{whole_decimal, decimal_at, matrix_at, squared, area_behind, keeps_area, dict_matrix, IsDictMatrix};
ghost use Rattle.cff_font.specs.Ranges.{IsFileSpan};
ghost use Rattle.cff_font.specs.Reals.{max_decimal};

use crate::dicts::{dict_token, operands_of};
use crate::reals::real_between;
use crate::tokens::{Span, Token};
use ass_num::hold;
use font_bytes::u8_at;

/// The operator that gives a matrix.
const FONT_MATRIX: u16 = 3_079;

/// 1, in 10^-15.
const ONE: i128 = 1_000_000_000_000_000;

/// The most that a number of a matrix is, 1,000, in 10^-15.
const MAX_DECIMAL: i64 = 1_000_000_000_000_000_000;

/// What is stretched by as much, or more, to 1 counts as flat.
const TOO_NARROW: u128 = 51;

/// The six numbers of a matrix, behind which the point (x, y) lies at (xx x + xy y + `x`, yx x + yy y + `y`). In a DICT they are
/// counted in 10^-15, for a glyph in 1/65,536.
#[derive(Clone, Copy)]
pub struct FontMatrix {
    pub xx: i64,
    pub yx: i64,
    pub xy: i64,
    pub yy: i64,
    pub x: i64,
    pub y: i64,
}

/// A number of a DICT, in 10^-15, and the place behind it.
#[derive(Clone, Copy)]
pub struct Decimal {
    pub value: i64,
    pub behind: usize,
}

/// A whole number.
fn whole_decimal(value: i64) -> i64
    ensures value { result ≡ whole_decimal value }
    ensures within { IsWithin max_decimal result }
{
    hold(i128::from(value) * ONE, -MAX_DECIMAL, MAX_DECIMAL)
}

/// The number at a place of a DICT that ends at `stop`.
fn decimal_at(bytes: &[u8], stop: usize, at: usize) -> Option<Decimal>
    requires { stop < 2 ^ 38 }
    ensures value { result ≡ decimal_at bytes.now stop at }
    ensures within { IfSome result (λ decimal. IsWithin max_decimal decimal.value) }
{
    let Token::Number(whole, behind) = dict_token(bytes, stop, at)? else {
        return None;
    };
    if u8_at(bytes, at) == 30 {
        return Some(Decimal {
            value: real_between(bytes, at + 1, behind),
            behind,
        });
    }
    Some(Decimal {
        value: whole_decimal(whole),
        behind,
    })
}

/// The matrix whose six numbers begin at a place.
fn matrix_at(bytes: &[u8], stop: usize, at: usize) -> Option<FontMatrix>
    requires { stop < 2 ^ 38 }
    ensures value { result ≡ matrix_at bytes.now stop at }
    ensures within { IfSome result IsDictMatrix }
{
    let xx = decimal_at(bytes, stop, at)?;
    let yx = decimal_at(bytes, stop, xx.behind)?;
    let xy = decimal_at(bytes, stop, yx.behind)?;
    let yy = decimal_at(bytes, stop, xy.behind)?;
    let x = decimal_at(bytes, stop, yy.behind)?;
    let y = decimal_at(bytes, stop, x.behind)?;
    Some(FontMatrix {
        xx: xx.value,
        yx: yx.value,
        xy: xy.value,
        yy: yy.value,
        x: x.value,
        y: y.value,
    })
}

/// The square of a number of a matrix.
fn squared(z: i64) -> u128
    requires { IsWithin max_decimal z }
    ensures value { result ≡ squared z }
    ensures within { result ≤ max_decimal * max_decimal }
{
    let size = u128::from(z.unsigned_abs());
    size * size
}

/// The area that a square of area 1 has behind a matrix.
fn area_behind(m: FontMatrix) -> u128
    requires { IsDictMatrix m }
    ensures value { result ≡ area_behind m }
    ensures within { result ≤ 2 * max_decimal * max_decimal }
{
    let upright = i128::from(m.xx) * i128::from(m.yy);
    let across = i128::from(m.xy) * i128::from(m.yx);
    (upright - across).unsigned_abs()
}

/// Whether a square behind a matrix is neither flat nor too narrow.
fn keeps_area(m: FontMatrix) -> bool
    requires { IsDictMatrix m }
    ensures { result ≡ keeps_area m }
{
    squared(m.xx) + squared(m.yx) + squared(m.xy) + squared(m.yy) < TOO_NARROW * area_behind(m)
}

/// The matrix of a DICT, if it has one that keeps areas.
pub fn dict_matrix(bytes: &[u8], dict: Span) -> Option<FontMatrix>
    requires { IsFileSpan dict }
    ensures value { result ≡ dict_matrix bytes.now dict }
    ensures within { IfSome result IsDictMatrix }
    ensures keeps { IfSome result (λ m. keeps_area m ≡ true) }
{
    let operands = operands_of(bytes, dict, FONT_MATRIX)?;
    let matrix = matrix_at(bytes, dict.to, operands.from)?;
    if keeps_area(matrix) {
        return Some(matrix);
    }
    None
}
