//! What the items of a state have in common: the font of its characters, its height above and below the baseline, what is put behind
//! clusters, and the matrix of drawings.

ghost use Rattle.std.specs.Prelude.{◌≡◌, ◌≤◌, length, All, IfOk};
ghost use Rattle.ass_num.specs.Limits.{IsHeldLength, IsHeldNumber, IsWithin, max_frame_side};
ghost use Rattle.bdf_font.specs.Ranges.{IsFont};
ghost use Rattle.frame_view.specs.FrameScales.{IsScales};
ghost use Rattle.frame_view.specs.FrameViews.{IsLayoutSide};
ghost use Rattle.line_layout.specs.Breaks.{IsItemWidth};
ghost use Rattle.outline_points.specs.Limits.{max_pixel};
ghost use Rattle.outline_points.specs.Placing.{IsScale};
ghost use Rattle.override_tags.specs.Limits.{max_tag_scale};
ghost use Rattle.override_tags.specs.Views.{IsState};
ghost use Rattle.text_layout.specs.Fonts.{IsLayoutFontSet};
ghost use Rattle.text_layout.specs.Metrics.{HasFont, IsMetrics, IsTextSize, all_metrics, held_extent, metrics_of, scale_across, scaled_pixels};
ghost use Rattle.text_layout.specs.Metrics.{spacing_of, state_metrics, text_size};
ghost use Rattle.text_layout.specs.Limits.{max_framed};

use crate::fonts::font_of_state;
use crate::scales::{divided, drawing_matrix, em_height, product, text_matrix, text_scale};
use ass_num::{Fix, Matrix, Mem, Milli, div_floor, hold};
use bdf_font::{Font, FontSet};
use frame_view::{Ratio, Scales, magnified};
use override_tags::{EventView, State};
use std::alloc::Global;

/// The farthest that an item may advance the pen, and the farthest that it may reach above and below the baseline.
const MAX_EXTENT: Fix = 1_048_576;

/// How large the letters of a state are across the frame, whatever their font.
#[derive(Clone, Copy, Debug, PartialEq, Eq)]
pub struct TextSize {
    /// How high a font is, in thousandths of a script pixel.
    pub height: Milli,
    /// How wide it is of that, in thousandths of a per cent.
    pub scale_x: Milli,
    pub across: Ratio,
}

/// What the items of a state have in common.
#[derive(Clone, Copy, Debug, PartialEq, Eq)]
pub struct Metrics {
    /// The place of their font.
    pub font: u32,
    pub size: TextSize,
    /// The horizontal scale of that font's letters.
    pub ux: i64,
    /// The heights of that font.
    pub ascent: Fix,
    pub descent: Fix,
    /// What is put behind the last character of a cluster.
    pub spacing: Fix,
    pub drawing: Matrix,
}

/// An advance, an ascent or a descent, held.
pub(crate) fn held_extent(length: i128) -> Fix
    ensures value { result ≡ held_extent length }
    ensures range { IsItemWidth result }
{
    hold(length, 0, MAX_EXTENT)
}

/// So many units of a font, scaled; those of a bitmap font are its pixels.
pub(crate) fn scaled_pixels(pixels: i32, scale: i64) -> i128
    requires pixels { IsWithin max_pixel pixels }
    requires scale { IsScale scale }
    ensures value { result ≡ scaled_pixels pixels scale }
    ensures within { IsWithin max_framed result }
{
    div_floor(i128::from(pixels) * i128::from(scale), 65_536)
}

/// The spacing behind a cluster.
fn spacing_of(spacing: Milli, scale: Milli, side: u32, res: u32) -> Fix
    requires spacing { IsHeldNumber spacing }
    requires scale { IsHeldLength scale }
    requires side { side ≤ max_frame_side }
    requires res { IsLayoutSide res }
    ensures value { result ≡ spacing_of spacing scale side res }
    ensures within { IsWithin max_framed result }
{
    let divisor = 100_000_000 * u128::from(res);
    divided(product(spacing, scale), 64 * u64::from(side), divisor) as Fix
}

/// How large the letters of a state are across the frame.
fn text_size(scales: &Scales, state: &State) -> TextSize
    requires scales { IsScales scales.now }
    requires scale_x { IsHeldLength state.now.scale_x }
    requires height { IsHeldLength state.now.size }
    ensures value { result ≡ text_size scales.now state.now }
    ensures range { IsTextSize result }
{
    TextSize {
        height: magnified(scales.letter_scale, state.size),
        scale_x: state.scale_x,
        across: scales.letters.x,
    }
}

/// The horizontal scale of a font's letters.
pub(crate) fn scale_across(size: &TextSize, font: &Font) -> i64
    requires size { IsTextSize size.now }
    requires font { IsFont font.now }
    ensures value { result ≡ scale_across size.now font.now }
    ensures range { IsScale result }
{
    let across = size.across;
    text_scale(
        size.height,
        size.scale_x,
        across.pixels,
        across.units,
        em_height(font),
    )
}

/// What the items of a state have in common; its font is this one.
fn metrics_of(scales: &Scales, number: u32, font: &Font, state: &State) -> Metrics
    requires scales { IsScales scales.now }
    requires font { IsFont font.now }
    requires scale_x { IsHeldLength state.now.scale_x }
    requires scale_y { IsHeldLength state.now.scale_y }
    requires height { IsHeldLength state.now.size }
    requires spacing { IsHeldNumber state.now.spacing }
    requires level { state.now.draw ≤ max_tag_scale }
    ensures value { result ≡ metrics_of scales.now number font.now state.now }
    ensures number { result.font ≡ number }
    ensures range { IsMetrics result }
{
    let m = text_matrix(scales, font, state);
    let across = scales.canvas.x;
    let spacing = magnified(scales.letter_scale, state.spacing);
    Metrics {
        font: number,
        size: text_size(scales, state),
        ux: m.ux,
        ascent: held_extent(scaled_pixels(font.ascent(), m.uy)),
        descent: held_extent(scaled_pixels(font.descent(), m.uy)),
        spacing: spacing_of(spacing, state.scale_x, across.pixels, across.units),
        drawing: drawing_matrix(scales, state),
    }
}

/// The metrics of a state of a view in the font of its name, bold and italic.
fn state_metrics(scales: &Scales, fonts: &FontSet, view: &EventView, state: &State) -> Metrics
    requires scales { IsScales scales.now }
    requires fonts { IsLayoutFontSet fonts.now.fonts }
    requires state { IsState (length view.now.names) state.now }
    ensures value { result ≡ state_metrics scales.now fonts.now.fonts view.now.names state.now }
    ensures range { IsMetrics result }
    ensures font { HasFont fonts.now.fonts result }
{
    let number = font_of_state(fonts, view, state);
    let font = &fonts.fonts.as_slice()[number as usize];
    metrics_of(scales, number, font, state)
}

/// The metrics of each state of a view.
pub fn all_metrics(
    alloc: Global,
    scales: &Scales,
    fonts: &FontSet,
    view: &EventView,
) -> Mem<Vec<Metrics>>
    requires scales { IsScales scales.now }
    requires fonts { IsLayoutFontSet fonts.now.fonts }
    requires states { All (IsState (length view.now.names)) view.now.states }
    ensures value { IfOk result (λ metrics. metrics.items ≡ all_metrics scales.now fonts.now.fonts view.now) }
    ensures range { IfOk result (λ metrics. All IsMetrics metrics.items) }
    ensures fonts { IfOk result (λ metrics. All (HasFont fonts.now.fonts) metrics.items) }
{
    let mut metrics = Vec::with_capacity(alloc, view.states.len())?;
    for state in view.states.as_slice() {
        metrics.push(state_metrics(scales, fonts, view, state))?;
    }
    Ok(metrics)
}
