//! How far each item advances the pen, and how far it reaches above and below the baseline.

ghost use Rattle.std.specs.Prelude.{◌≡◌, ◌<◌, length, All, IfOk, Some, slice_index_or};
ghost use Rattle.ass_num.specs.Limits.{IsWithin};
ghost use Rattle.ass_num.specs.Paths.{IsPath};
ghost use Rattle.bdf_font.specs.Sets.{IsGlyphPlaceIn, no_font, set_glyph_of};
ghost use Rattle.line_layout.specs.Breaks.{IsItemWidth};
ghost use Rattle.outline_points.specs.Placing.{IsMatrix, IsScale};
ghost use Rattle.override_tags.specs.Views.{IsShownItem, IsShownKind};
ghost use Rattle.text_layout.specs.Fonts.{IsLayoutFontSet};
ghost use Rattle.text_layout.specs.Metrics.{HasFont, IsMetrics, scale_across};
ghost use Rattle.text_layout.specs.Limits.{max_framed};
ghost use Rattle.text_layout.specs.Extents.{IsItemExtent, char_advance, char_extent, drawn_extent, extent_of, found_advance, item_extents, kind_extent};
ghost use Rattle.text_layout.specs.Extents.{spacing_behind};

use crate::clusters::cluster_ends;
use crate::kinds::char_of;
use crate::metrics::{Metrics, held_extent, scale_across, scaled_pixels};
use ass_num::{Fix, Matrix, Mem, Path};
use bdf_font::{FontSet, GlyphPlace, set_glyph};
use outline_points::drawing_extent;
use override_tags::{Shown, ShownKind};
use std::alloc::Global;

/// How far an item advances the pen, and how far it reaches above and below the baseline.
#[derive(Clone, Copy, Debug, PartialEq, Eq)]
pub struct Extent {
    pub advance: Fix,
    pub ascent: Fix,
    pub descent: Fix,
}

/// The extent of what takes no room.
pub(crate) const NO_EXTENT: Extent = Extent {
    advance: 0,
    ascent: 0,
    descent: 0,
};

/// The horizontal scale of the letters of a font of the set in a state with these metrics.
fn scale_in(fonts: &FontSet, metrics: &Metrics, number: u32) -> i64
    requires fonts { IsLayoutFontSet fonts.now.fonts }
    requires metrics { IsMetrics metrics.now }
    requires font { HasFont fonts.now.fonts metrics.now }
    requires number { number < length fonts.now.fonts }
    ensures value { result ≡ scale_across metrics.now.size (slice_index_or fonts.now.fonts number no_font) }
    ensures range { IsScale result }
{
    if number == metrics.font {
        return metrics.ux;
    }
    scale_across(&metrics.size, &fonts.fonts.as_slice()[number as usize])
}

/// The advance of a glyph of the set at the scale of its font.
fn glyph_advance(fonts: &FontSet, metrics: &Metrics, place: GlyphPlace) -> i128
    requires fonts { IsLayoutFontSet fonts.now.fonts }
    requires metrics { IsMetrics metrics.now }
    requires font { HasFont fonts.now.fonts metrics.now }
    requires place { IsGlyphPlaceIn fonts.now.fonts place }
    ensures value { result ≡ found_advance fonts.now.fonts metrics.now (Some place) }
    ensures within { IsWithin max_framed result }
{
    let font = &fonts.fonts.as_slice()[place.font as usize];
    let scale = scale_in(fonts, metrics, place.font);
    scaled_pixels(font.advance_at(place.glyph), scale)
}

/// The advance of a character's glyph at the scale of its font, or 0 without one.
fn found_advance(fonts: &FontSet, metrics: &Metrics, c: char) -> i128
    requires fonts { IsLayoutFontSet fonts.now.fonts }
    requires metrics { IsMetrics metrics.now }
    requires font { HasFont fonts.now.fonts metrics.now }
    ensures value { result ≡ found_advance fonts.now.fonts metrics.now (set_glyph_of fonts.now.fonts metrics.now.font c) }
    ensures within { IsWithin max_framed result }
{
    match set_glyph(fonts, metrics.font, c) {
        Some(place) => glyph_advance(fonts, metrics, place),
        None => 0,
    }
}

/// What is put behind a character: the spacing behind the last one of a cluster.
fn spacing_behind(metrics: &Metrics, ends_cluster: bool) -> Fix
    requires { IsMetrics metrics.now }
    ensures value { result ≡ spacing_behind metrics.now ends_cluster }
    ensures within { IsWithin max_framed result }
{
    if ends_cluster { metrics.spacing } else { 0 }
}

/// How far a character advances the pen. Its glyph is of the state's font, or of another one that has the character.
fn char_advance(fonts: &FontSet, metrics: &Metrics, ends_cluster: bool, c: char) -> Fix
    requires fonts { IsLayoutFontSet fonts.now.fonts }
    requires metrics { IsMetrics metrics.now }
    requires font { HasFont fonts.now.fonts metrics.now }
    ensures value { result ≡ char_advance fonts.now.fonts metrics.now ends_cluster c }
    ensures range { IsItemWidth result }
{
    let advance = found_advance(fonts, metrics, c);
    held_extent(advance + i128::from(spacing_behind(metrics, ends_cluster)))
}

/// The extent of a character, whose heights are those of the state's font.
fn char_extent(fonts: &FontSet, metrics: &Metrics, ends_cluster: bool, c: char) -> Extent
    requires fonts { IsLayoutFontSet fonts.now.fonts }
    requires metrics { IsMetrics metrics.now }
    requires font { HasFont fonts.now.fonts metrics.now }
    ensures value { result ≡ char_extent fonts.now.fonts metrics.now ends_cluster c }
    ensures range { IsItemExtent result }
{
    Extent {
        advance: char_advance(fonts, metrics, ends_cluster, c),
        ascent: metrics.ascent,
        descent: metrics.descent,
    }
}

/// The extent of a drawing under a matrix: its largest x and y, before it is shifted and turned (Aegisub tag reference, "\p").
pub fn drawn_extent(alloc: Global, path: &Path, m: &Matrix) -> Mem<Extent>
    requires path { IsPath path.now.segs }
    requires matrix { IsMatrix m.now }
    ensures value { IfOk result (λ extent. extent ≡ drawn_extent m.now path.now.segs) }
    ensures range { IfOk result IsItemExtent }
{
    let largest = drawing_extent(alloc, path, m)?;
    Ok(Extent {
        advance: held_extent(i128::from(largest.x)),
        ascent: held_extent(i128::from(largest.y)),
        descent: 0,
    })
}

/// The extent of an item of a state with these metrics.
fn extent_of(
    alloc: Global,
    fonts: &FontSet,
    metrics: &Metrics,
    wrap: u8,
    shown: &Shown,
    ends_cluster: bool,
) -> Mem<Extent>
    requires fonts { IsLayoutFontSet fonts.now.fonts }
    requires metrics { IsMetrics metrics.now }
    requires font { HasFont fonts.now.fonts metrics.now }
    requires shown { IsShownKind shown.now.kind }
    ensures value { IfOk result (λ extent. extent ≡ kind_extent fonts.now.fonts metrics.now wrap ends_cluster shown.now.kind) }
    ensures range { IfOk result IsItemExtent }
{
    if let ShownKind::Drawing(path) = &shown.kind {
        return drawn_extent(alloc, path, &metrics.drawing);
    }
    match char_of(shown, wrap) {
        Some(c) => Ok(char_extent(fonts, metrics, ends_cluster, c)),
        None => Ok(NO_EXTENT),
    }
}

/// The extent of an item, in its state.
fn shown_extent(
    alloc: Global,
    fonts: &FontSet,
    metrics: &[Metrics],
    wrap: u8,
    shown: &Shown,
    ends_cluster: bool,
) -> Mem<Extent>
    requires fonts { IsLayoutFontSet fonts.now.fonts }
    requires metrics { All IsMetrics metrics.now }
    requires font { All (HasFont fonts.now.fonts) metrics.now }
    requires shown { IsShownItem (length metrics.now) shown.now }
    ensures value { IfOk result (λ extent. extent ≡ extent_of fonts.now.fonts metrics.now wrap shown.now ends_cluster) }
    ensures range { IfOk result IsItemExtent }
{
    extent_of(
        alloc,
        fonts,
        &metrics[shown.state as usize],
        wrap,
        shown,
        ends_cluster,
    )
}

/// The extents of all items.
pub fn item_extents(
    alloc: Global,
    fonts: &FontSet,
    metrics: &[Metrics],
    wrap: u8,
    items: &[Shown],
) -> Mem<Vec<Extent>>
    requires fonts { IsLayoutFontSet fonts.now.fonts }
    requires metrics { All IsMetrics metrics.now }
    requires font { All (HasFont fonts.now.fonts) metrics.now }
    requires items { All (IsShownItem (length metrics.now)) items.now }
    ensures value { IfOk result (λ list. list.items ≡ item_extents fonts.now.fonts metrics.now wrap items.now) }
    ensures range { IfOk result (λ list. All IsItemExtent list.items) }
    ensures count { IfOk result (λ list. length list.items ≡ length items.now) }
{
    let ends = cluster_ends(alloc, items, wrap)?;
    let mut extents = Vec::with_capacity(alloc, items.len())?;
    for (k, shown) in items.iter().enumerate() {
        extents.push(shown_extent(alloc, fonts, metrics, wrap, shown, ends[k])?)?;
    }
    Ok(extents)
}
