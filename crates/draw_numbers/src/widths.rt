//! How wide borders are, how far shadows lie, and how much masks are softened and blurred.

ghost use Rattle.std.specs.Prelude.{◌≡◌, ◌≤◌, ◌<◌, IsTrue, ◌↔◌};
ghost use Rattle.ass_num.specs.Limits.{IsHeldLength, IsHeldNumber, IsWithin};
ghost use Rattle.frame_view.specs.FrameScales.{IsScales, IsSideRatio};
ghost use Rattle.frame_view.specs.Limits.{max_layout_side};
ghost use Rattle.mask_keys.specs.Keys.{max_border, max_passes, max_blur_radius};
ghost use Rattle.draw_numbers.specs.Limits.{max_shadow_offset};
ghost use Rattle.draw_numbers.specs.Widths as rule;

use crate::products::{rounded, scaled};
use ass_num::{Milli, hold};
use frame_view::{Ratio, Scales, magnified};
use override_tags::State;

/// The radii of a border in samples, 1/16 pixel, at most 1,600; 0 by 0 is no border.
#[derive(Clone, Copy, Debug, PartialEq, Eq)]
pub struct Radii {
    pub x: u32,
    pub y: u32,
}

/// How far a shadow lies to the right of and below what throws it, in samples.
#[derive(Clone, Copy, Debug, PartialEq, Eq)]
pub struct Offsets {
    pub x: i64,
    pub y: i64,
}

/// How many passes soften a mask, at most 127, and the radius of the blur after them in pixels, at most 100.
#[derive(Clone, Copy, Debug, PartialEq, Eq)]
pub struct Softness {
    pub edges: u8,
    pub blur: u8,
}

/// No border.
pub const NO_RADII: Radii = Radii { x: 0, y: 0 };

/// Where nothing is moved.
pub const NO_OFFSETS: Offsets = Offsets { x: 0, y: 0 };

/// Not softened.
pub const NO_SOFTNESS: Softness = Softness { edges: 0, blur: 0 };

/// A width of the script in samples.
fn in_samples(width: Milli, ratio: Ratio) -> i64
    requires width { IsHeldNumber width }
    requires ratio { IsSideRatio max_layout_side ratio }
    ensures value { result ≡ rule.in_samples width ratio }
    ensures within { IsWithin max_shadow_offset result }
{
    scaled(width, 16 * ratio.pixels, 1_000 * ratio.units)
}

/// The nearest radius that a border may have.
fn radius(width: Milli, ratio: Ratio) -> u32
    requires width { IsHeldLength width }
    requires ratio { IsSideRatio max_layout_side ratio }
    ensures value { result ≡ rule.radius width ratio }
    ensures within { result ≤ max_border }
{
    hold(i128::from(in_samples(width, ratio)), 0, 1_600) as u32
}

/// The radii of the border of a state (Aegisub tag reference, "\bord"; Advanced SubStation Alpha, "ScaledBorderAndShadow").
pub fn radii_of(scales: &Scales, state: &State) -> Radii
    requires scales { IsScales scales.now }
    requires border_x { IsHeldLength state.now.border_x }
    requires border_y { IsHeldLength state.now.border_y }
    ensures value { result ≡ rule.radii_of scales.now state.now }
    ensures x { result.x ≤ max_border }
    ensures y { result.y ≤ max_border }
{
    let border_x = magnified(scales.letter_scale, state.border_x);
    let border_y = magnified(scales.letter_scale, state.border_y);
    Radii {
        x: radius(border_x, scales.borders.x),
        y: radius(border_y, scales.borders.y),
    }
}

/// Where the shadow of a state lies (Aegisub tag reference, "\shad").
pub fn offsets_of(scales: &Scales, state: &State) -> Offsets
    requires scales { IsScales scales.now }
    requires shadow_x { IsHeldNumber state.now.shadow_x }
    requires shadow_y { IsHeldNumber state.now.shadow_y }
    ensures value { result ≡ rule.offsets_of scales.now state.now }
    ensures x { IsWithin max_shadow_offset result.x }
    ensures y { IsWithin max_shadow_offset result.y }
{
    let shadow_x = magnified(scales.letter_scale, state.shadow_x);
    let shadow_y = magnified(scales.letter_scale, state.shadow_y);
    Offsets {
        x: in_samples(shadow_x, scales.borders.x),
        y: in_samples(shadow_y, scales.borders.y),
    }
}

/// How many passes soften a mask.
fn passes(edges: Milli) -> u8
    ensures value { result ≡ rule.passes edges }
    ensures within { result ≤ max_passes }
{
    hold(i128::from(edges.div_euclid(1_000)), 0, 127) as u8
}

/// The radius of a blur in pixels, rounded.
fn blur_radius(blur: Milli, ratio: Ratio) -> u8
    requires blur { IsHeldLength blur }
    requires ratio { IsSideRatio max_layout_side ratio }
    ensures value { result ≡ rule.blur_radius blur ratio }
    ensures within { result ≤ max_blur_radius }
{
    let pixels = rounded(blur, 2 * ratio.pixels, 1_000 * ratio.units);
    hold(i128::from(pixels), 0, 100) as u8
}

/// How the masks of a state are softened (Aegisub tag reference, "\be", "\blur").
pub fn softness_of(scales: &Scales, state: &State) -> Softness
    requires scales { IsScales scales.now }
    requires blur { IsHeldLength state.now.blur }
    ensures value { result ≡ rule.softness_of scales.now state.now }
    ensures edges { result.edges ≤ max_passes }
    ensures radius { result.blur ≤ max_blur_radius }
{
    let blur = magnified(scales.letter_scale, state.blur);
    Softness {
        edges: passes(state.edges),
        blur: blur_radius(blur, scales.blur),
    }
}
