//! The matrix of a glyph, in 1/65,536.

ghost use Rattle.std.specs.Prelude.{◌≡◌, ◌<◌, ◌^◌, ◌+ℤ◌, ◌*ℤ◌, true, IfSome};
ghost use Rattle.ass_num.specs.Limits.{IsWithin};
ghost use Rattle.cff_font.specs.Matrices.{keeps_area, max_share, matrix_em, em_share, normalized, em_matrix, product_share};
ghost use Rattle.cff_font.specs.Matrices.{matrix_product, matrix_by, own_matrix, glyph_matrix, IsDictMatrix, IsGlyphMatrix};
ghost use Rattle.cff_font.specs.Ranges.{IsCffFont};

use crate::decimals::{FontMatrix, dict_matrix};
use crate::read::CffFont;
use crate::subroutines::glyph_dict;
use ass_num::{div_floor, hold};

/// 1, in 10^-15.
const ONE: i128 = 1_000_000_000_000_000;

/// The most that a number of a glyph's matrix is: 65,536.
const MAX_SHARE: i64 = 4_294_967_296;

/// The em of a font, in 10^-15, by its matrix.
fn matrix_em(m: FontMatrix) -> u64
    requires within { IsDictMatrix m }
    requires keeps { keeps_area m ≡ true }
    ensures value { result ≡ matrix_em m }
    ensures some { 0 < result }
{
    if m.yy == 0 {
        return m.yx.unsigned_abs();
    }
    m.yy.unsigned_abs()
}

/// A number by that of an em, rounded to the nearest.
fn em_share(em: u64, z: i64) -> i64
    requires em { 0 < em }
    ensures value { result ≡ em_share em z }
    ensures within { IsWithin max_share result }
{
    let share = div_floor(i128::from(z) * 65_536 + i128::from(em / 2), i128::from(em));
    hold(share, -MAX_SHARE, MAX_SHARE)
}

/// A matrix by its em.
fn normalized(m: FontMatrix) -> FontMatrix
    requires within { IsDictMatrix m }
    requires keeps { keeps_area m ≡ true }
    ensures value { result ≡ normalized m }
    ensures within { IsGlyphMatrix result }
{
    let em = matrix_em(m);
    FontMatrix {
        xx: em_share(em, m.xx),
        yx: em_share(em, m.yx),
        xy: em_share(em, m.xy),
        yy: em_share(em, m.yy),
        x: em_share(em, m.x),
        y: em_share(em, m.y),
    }
}

/// The matrix that gives an em its units.
fn em_matrix(units: u16) -> FontMatrix
    ensures value { result ≡ em_matrix units }
    ensures within { IsGlyphMatrix result }
{
    let share = i64::from(units) * 65_536;
    FontMatrix {
        xx: share,
        yx: 0,
        xy: 0,
        yy: share,
        x: 0,
        y: 0,
    }
}

fn multiplied(a: i64, b: i64) -> i128
    ensures { result ≡ a *ℤ b }
{
    i128::from(a) * i128::from(b)
}

/// A sum of two products.
pub fn sum_of_products(a: i64, b: i64, c: i64, d: i64) -> i128
    requires a { IsWithin max_share a }
    requires c { IsWithin max_share c }
    ensures value { result ≡ (a *ℤ b) +ℤ (c *ℤ d) }
    ensures within { IsWithin (2 ^ 96) result }
{
    multiplied(a, b) + multiplied(c, d)
}

/// A sum of two products of 1/65,536 and 10^-15, rounded to the nearest.
fn product_share(a: i64, b: i64, c: i64, d: i64) -> i64
    requires a { IsWithin max_share a }
    requires c { IsWithin max_share c }
    ensures value { result ≡ product_share a b c d }
    ensures within { IsWithin max_share result }
{
    let sum = sum_of_products(a, b, c, d);
    hold(div_floor(sum + ONE / 2, ONE), -MAX_SHARE, MAX_SHARE)
}

/// The matrix of a font DICT, and then another one.
fn matrix_product(m: FontMatrix, own: FontMatrix) -> FontMatrix
    requires { IsGlyphMatrix m }
    ensures value { result ≡ matrix_product m own }
    ensures within { IsGlyphMatrix result }
{
    FontMatrix {
        xx: product_share(m.xx, own.xx, m.xy, own.yx),
        yx: product_share(m.yx, own.xx, m.yy, own.yx),
        xy: product_share(m.xx, own.xy, m.xy, own.yy),
        yy: product_share(m.yx, own.xy, m.yy, own.yy),
        x: product_share(m.xx, own.x, m.xy, own.y),
        y: product_share(m.yx, own.x, m.yy, own.y),
    }
}

/// The matrix of a glyph by that of the Top DICT and that of its font DICT, in a font whose em has so many units.
fn matrix_by(units: u16, top: Option<FontMatrix>, own: Option<FontMatrix>) -> Option<FontMatrix>
    requires top { IfSome top IsDictMatrix }
    requires keeps { IfSome top (λ m. keeps_area m ≡ true) }
    requires own { IfSome own IsDictMatrix }
    ensures value { result ≡ matrix_by units top own }
    ensures within { IfSome result IsGlyphMatrix }
{
    match (top, own) {
        (None, None) => None,
        (Some(top), None) => Some(normalized(top)),
        (None, Some(own)) => Some(matrix_product(em_matrix(units), own)),
        (Some(top), Some(own)) => Some(matrix_product(normalized(top), own)),
    }
}

/// The matrix of the font DICT of a glyph, where there are any.
fn own_matrix(bytes: &[u8], font: &CffFont, g: u16) -> Option<FontMatrix>
    requires { IsCffFont font.now }
    ensures value { result ≡ own_matrix bytes.now font.now g font.now.dicts }
    ensures within { IfSome result IsDictMatrix }
{
    if font.dicts.is_none() {
        return None;
    }
    dict_matrix(bytes, glyph_dict(bytes, font, g)?)
}

/// The matrix of a glyph, in a font whose em has so many units.
pub fn glyph_matrix(bytes: &[u8], font: &CffFont, units: u16, g: u16) -> Option<FontMatrix>
    requires { IsCffFont font.now }
    ensures value { result ≡ glyph_matrix bytes.now font.now units g }
    ensures within { IfSome result IsGlyphMatrix }
{
    matrix_by(
        units,
        dict_matrix(bytes, font.top),
        own_matrix(bytes, font, g),
    )
}
