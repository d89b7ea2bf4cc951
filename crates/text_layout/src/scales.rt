//! How lengths of a script become lengths of the frame, and the matrices of characters, drawings and clips.

ghost use Rattle.std.specs.Prelude.{◌≡◌, ◌≤◌, ◌<◌, pos, ◌*ℤ◌};
ghost use Rattle.ass_num.specs.Floor.{floor_div};
ghost use Rattle.ass_num.specs.Limits.{IsHeldLength, IsHeldNumber, IsWithin, max_frame_side};
ghost use Rattle.bdf_font.specs.Ranges.{IsFont};
ghost use Rattle.frame_view.specs.FrameScales.{IsScales};
ghost use Rattle.frame_view.specs.FrameViews.{IsLayoutSide};
ghost use Rattle.frame_view.specs.Limits.{max_ratio_number};
ghost use Rattle.outline_points.specs.Placing.{IsMatrix, IsScale};
ghost use Rattle.override_tags.specs.Limits.{max_tag_scale};
ghost use Rattle.text_layout.specs.Limits.{max_dividend, max_divisor, max_em, max_factor, max_framed, max_level_parts, max_script_length};
ghost use Rattle.text_layout.specs.Scales.{clip_matrix, drawing_matrix, drawing_scale, em_height, fine_parts, framed, held_scale, level_parts, text_matrix};
ghost use Rattle.text_layout.specs.Scales.{text_scale, turn_of};

use crate::fonts::needs_slant;
use ass_num::{Fix, Matrix, Milli, div_floor, hold};
use bdf_font::Font;
use frame_view::{Scales, magnified};
use override_tags::State;

/// The largest scale of a matrix: 2^40.
const MAX_SCALE: i64 = 1_099_511_627_776;

/// The product of two numbers that a script may have.
pub(crate) fn product(a: Milli, b: Milli) -> i128
    requires a { IsHeldNumber a }
    requires b { IsHeldNumber b }
    ensures value { result ≡ a *ℤ b }
    ensures within { IsWithin max_dividend result }
{
    i128::from(a) * i128::from(b)
}

/// A multiple of a number, divided and rounded down.
pub(crate) fn divided(a: i128, factor: u64, divisor: u128) -> i128
    requires number { IsWithin max_dividend a }
    requires factor { factor ≤ max_factor }
    requires divisor { 0 < divisor }
    requires most { divisor ≤ max_divisor }
    ensures { result ≡ floor_div (a *ℤ pos factor) (pos divisor) }
{
    div_floor(a * i128::from(factor), divisor as i128)
}

/// A length of the script, in thousandths of its pixels, in 1/64 pixel of a frame whose `side` pixels show `res` pixels of the script
/// (Advanced SubStation Alpha, "PlayResX").
pub fn framed(length: Milli, side: u32, res: u32) -> Fix
    requires length { IsWithin max_script_length length }
    requires side { side ≤ max_frame_side }
    requires res { IsLayoutSide res }
    ensures value { result ≡ framed length side res }
    ensures within { IsWithin max_framed result }
{
    divided(
        i128::from(length),
        64 * u64::from(side),
        1_000 * u128::from(res),
    ) as Fix
}

/// The height of a font above and below the baseline, at least 1.
pub(crate) fn em_height(font: &Font) -> u64
    requires { IsFont font.now }
    ensures value { result ≡ em_height font.now }
    ensures some { 0 < result }
    ensures most { result ≤ max_em }
{
    (i64::from(font.ascent()) + i64::from(font.descent()))
        .max(1)
        .unsigned_abs()
}

/// The scale that a quotient is: none is above the largest one.
fn held_scale(quotient: i128) -> i64
    ensures value { result ≡ held_scale quotient }
    ensures range { IsScale result }
{
    hold(quotient, 0, MAX_SCALE)
}

/// How many parts of 65,536 of 1/64 pixel a side of the frame has.
fn fine_parts(side: u32) -> u64
    requires { side ≤ max_ratio_number }
    ensures value { result ≡ fine_parts side }
    ensures within { result ≤ max_factor }
{
    u64::from(side) * 64 * 65_536
}

/// The scale of a unit of a font that is `em` units high.
pub(crate) fn text_scale(size: Milli, scale: Milli, side: u32, res: u32, em: u64) -> i64
    requires size { IsHeldLength size }
    requires scale { IsHeldLength scale }
    requires side { side ≤ max_ratio_number }
    requires some_unit { 0 < res }
    requires res { res ≤ max_ratio_number }
    requires some { 0 < em }
    requires most { em ≤ max_em }
    ensures value { result ≡ text_scale size scale side res em }
    ensures range { IsScale result }
{
    let divisor = 100_000_000 * u128::from(res) * u128::from(em);
    held_scale(divided(product(size, scale), fine_parts(side), divisor))
}

/// The scale of a unit of a drawing of a level, which is a script pixel in level 1 and half of the one before in each further level.
fn drawing_scale(scale: Milli, level: u32, side: u32, res: u32) -> i64
    requires scale { IsHeldLength scale }
    requires level { level ≤ max_tag_scale }
    requires side { side ≤ max_frame_side }
    requires res { IsLayoutSide res }
    ensures value { result ≡ drawing_scale scale level side res }
    ensures range { IsScale result }
{
    let divisor = 100_000 * u128::from(res) * u128::from(level_parts(level));
    held_scale(divided(i128::from(scale), fine_parts(side), divisor))
}

/// How many units of a level make a script pixel.
fn level_parts(level: u32) -> u64
    requires { level ≤ max_tag_scale }
    ensures value { result ≡ level_parts level }
    ensures some { 0 < result }
    ensures most { result ≤ max_level_parts }
{
    2_u64.pow(level.saturating_sub(1))
}

/// The turn by an angle, from 0 up to a whole turn.
fn turn_of(angle: Milli) -> Milli
    ensures { result ≡ turn_of angle }
{
    angle.rem_euclid(360_000)
}

/// The matrix of characters in a state with this font: they are slanted where the state is italic and the font isn't slanted.
pub fn text_matrix(scales: &Scales, font: &Font, state: &State) -> Matrix
    requires scales { IsScales scales.now }
    requires font { IsFont font.now }
    requires scale_x { IsHeldLength state.now.scale_x }
    requires scale_y { IsHeldLength state.now.scale_y }
    requires height { IsHeldLength state.now.size }
    ensures value { result ≡ text_matrix scales.now font.now state.now }
    ensures range { IsMatrix result }
{
    let em = em_height(font);
    let size = magnified(scales.letter_scale, state.size);
    let across = scales.letters.x;
    let down = scales.letters.y;
    Matrix {
        ux: text_scale(size, state.scale_x, across.pixels, across.units, em),
        uy: text_scale(size, state.scale_y, down.pixels, down.units, em),
        italic: needs_slant(font, state),
        turn: turn_of(state.angle),
    }
}

/// The matrix of drawings in a state.
pub fn drawing_matrix(scales: &Scales, state: &State) -> Matrix
    requires scales { IsScales scales.now }
    requires scale_x { IsHeldLength state.now.scale_x }
    requires scale_y { IsHeldLength state.now.scale_y }
    requires level { state.now.draw ≤ max_tag_scale }
    ensures value { result ≡ drawing_matrix scales.now state.now }
    ensures range { IsMatrix result }
{
    let scale_x = magnified(scales.letter_scale, state.scale_x);
    let scale_y = magnified(scales.letter_scale, state.scale_y);
    let across = scales.canvas.x;
    let down = scales.canvas.y;
    Matrix {
        ux: drawing_scale(scale_x, state.draw, across.pixels, across.units),
        uy: drawing_scale(scale_y, state.draw, down.pixels, down.units),
        italic: false,
        turn: turn_of(state.angle),
    }
}

/// The matrix of the drawing of a clip at a level.
pub fn clip_matrix(scales: &Scales, level: u32) -> Matrix
    requires scales { IsScales scales.now }
    requires level { level ≤ max_tag_scale }
    ensures value { result ≡ clip_matrix scales.now level }
    ensures range { IsMatrix result }
{
    let across = scales.canvas.x;
    let down = scales.canvas.y;
    Matrix {
        ux: drawing_scale(100_000, level, across.pixels, across.units),
        uy: drawing_scale(100_000, level, down.pixels, down.units),
        italic: false,
        turn: 0,
    }
}
