//! What the items of a line leave on the frame: their outlines, and the pens at which these stand.

ghost use Rattle.std.specs.Prelude.{◌≡◌, ◌<◌, ◌≤◌, ◌+◌, ◌++◌, false, length, All, IfOk, IfSome, OnOk, slice_get};
ghost use Rattle.ass_num.specs.Limits.{IsHeldNumber, IsPointWithin, IsWithin};
ghost use Rattle.std.specs.Option.{option_map_or, option_to_list};
ghost use Rattle.ass_num.specs.Paths.{IsPath};
ghost use Rattle.bdf_font.specs.Sets.{IsGlyphPlaceIn};
ghost use Rattle.outline_points.specs.Limits.{max_length};
ghost use Rattle.outline_points.specs.Placing.{IsScale};
ghost use Rattle.override_tags.specs.Views.{IsShownItem, IsShownKind, IsState, IsView};
ghost use Rattle.text_layout.specs.Anchors.{IsBlockSide};
ghost use Rattle.text_layout.specs.Fonts.{IsLayoutFontSet, font_of_state, state_fonts};
ghost use Rattle.text_layout.specs.Limits.{max_block};
ghost use Rattle.event_draws.specs.Items.{IsBlockItem, shown_of, state_of};
ghost use Rattle.event_draws.specs.Limits.{max_block_pen, max_block_corner};
ghost use Rattle.event_draws.specs.Marks as rule;
ghost use Rattle.event_draws.specs.Stages.{IsStage};

use crate::clip::path_copy;
use crate::lengths::{difference, sum};
use crate::stage::Stage;
use ass_num::{Fix, Items, Mem, Path, Point, div_floor};
use bdf_font::{Font, FontSet, GlyphPlace, set_glyph};
use mask_keys::{OutlineKey, Shared};
use override_tags::{EventView, Shown, ShownKind, State};
use std::alloc::Global;
use text_layout::{
    Line, Placed, char_of, drawing_matrix, drawn_extent, needs_bold_step, text_matrix,
};

/// An outline, and its pen before turning, in 1/64 pixel of the frame.
#[derive(Debug, Drop)]
pub(crate) struct Mark {
    pub outline: OutlineKey,
    pub pen: Point,
}

/// Whether the glyph at a place of a font leaves something: it isn't blank, or the state draws bars.
fn is_marked(state: &State, font: &Font, place: u32) -> bool
    requires { place < length font.now.glyphs }
    ensures { result ≡ option_map_or (rule.is_marked state.now) (slice_get font.now.glyphs place) false }
{
    state.underline || state.strikeout || !font.is_blank_at(place)
}

/// The outline of a glyph of the set, if it leaves anything. It is slanted, and bold, where its font isn't so itself.
fn glyph_outline(
    stage: &Stage,
    fonts: &FontSet,
    state: &State,
    place: GlyphPlace,
) -> Option<OutlineKey>
    requires stage { IsStage stage.now }
    requires state { IsState (state.now.font + 1) state.now }
    requires fonts { IsLayoutFontSet fonts.now.fonts }
    requires place { IsGlyphPlaceIn fonts.now.fonts place }
    ensures { result ≡ rule.glyph_outline stage.now fonts.now.fonts state.now place }
{
    let font = &fonts.fonts.as_slice()[place.font as usize];
    if is_marked(state, font, place.glyph) {
        return Some(OutlineKey::Glyph {
            font: place.font,
            glyph: place.glyph,
            m: text_matrix(&stage.scales, font, state),
            bold: needs_bold_step(font, state),
            underline: state.underline,
            strikeout: state.strikeout,
        });
    }
    None
}

/// The outline of a character in a font, or in another one that has it, if it leaves anything.
fn font_outline(
    stage: &Stage,
    fonts: &FontSet,
    state: &State,
    number: u32,
    c: char,
) -> Option<OutlineKey>
    requires stage { IsStage stage.now }
    requires state { IsState (state.now.font + 1) state.now }
    requires fonts { IsLayoutFontSet fonts.now.fonts }
    requires number { number < length fonts.now.fonts }
    ensures { result ≡ rule.font_outline stage.now fonts.now.fonts state.now number c }
{
    match set_glyph(fonts, number, c) {
        Some(place) => glyph_outline(stage, fonts, state, place),
        None => None,
    }
}

/// How far down a drawing of a state lies under a matrix of this scale.
fn scaled_offset(state: &State, uy: i64) -> i128
    requires offset { IsHeldNumber state.now.offset }
    requires scale { IsScale uy }
    ensures value { result ≡ rule.drawing_shift state.now uy }
    ensures within { IsWithin max_length result }
{
    div_floor(i128::from(state.offset) * i128::from(uy), 65_536_000)
}

/// The same as a length.
fn drawing_shift(state: &State, uy: i64) -> Fix
    requires offset { IsHeldNumber state.now.offset }
    requires scale { IsScale uy }
    ensures value { result ≡ rule.drawing_shift state.now uy }
    ensures within { IsWithin max_length result }
{
    scaled_offset(state, uy) as Fix
}

/// A point, moved up.
fn raised(p: Point, height: Fix) -> Point
    requires point { IsPointWithin (max_block_corner + max_block) p }
    requires height { IsBlockSide height }
    ensures value { result ≡ rule.point_above p height }
    ensures within { IsPointWithin max_block_pen result }
{
    Point {
        x: p.x,
        y: difference(p.y, height),
    }
}

/// The mark of a drawing, if it has vertices. Its pen stands as high above the baseline as the drawing is (Aegisub tag reference,
/// "\p", "\pbo").
fn drawing_mark(
    alloc: Global,
    stage: &Stage,
    state: &State,
    pen: Point,
    path: &Path,
) -> Mem<Option<Mark>>
    requires stage { IsStage stage.now }
    requires state { IsState (state.now.font + 1) state.now }
    requires pen { IsPointWithin (max_block_corner + max_block) pen }
    requires path { IsPath path.now.segs }
    ensures value { IfOk result (λ mark. mark ≡ rule.drawing_mark stage.now state.now pen path.now path.now.segs) }
    ensures range { IfOk result (λ mark. IfSome mark rule.IsMark) }
{
    if path.segs.is_empty() {
        return Ok(None);
    }
    let m = drawing_matrix(&stage.scales, state);
    let extent = drawn_extent(alloc, path, &m)?;
    let outline = OutlineKey::Drawing {
        path: Shared::new(alloc, path_copy(alloc, path)?)?,
        m,
        shift: drawing_shift(state, m.uy),
    };
    Ok(Some(Mark {
        outline,
        pen: raised(pen, extent.ascent),
    }))
}

/// The mark of a character of a state whose font has this place, if it leaves any.
fn char_mark(
    stage: &Stage,
    fonts: &FontSet,
    view: &EventView,
    state: &State,
    number: u32,
    pen: Point,
    c: char,
) -> Option<Mark>
    requires stage { IsStage stage.now }
    requires fonts { IsLayoutFontSet fonts.now.fonts }
    requires state { IsState (length view.now.names) state.now }
    requires number { number ≡ font_of_state fonts.now.fonts view.now.names state.now }
    requires within { number < length fonts.now.fonts }
    requires pen { IsPointWithin (max_block_corner + max_block) pen }
    ensures value { result ≡ rule.char_mark stage.now fonts.now.fonts view.now.names state.now pen c }
    ensures range { IfSome result rule.IsMark }
{
    match font_outline(stage, fonts, state, number, c) {
        Some(outline) => Some(Mark { outline, pen }),
        None => None,
    }
}

/// The mark of what is shown at a pen in a state whose font has this place, if it leaves any.
fn mark_by(
    alloc: Global,
    stage: &Stage,
    fonts: &FontSet,
    view: &EventView,
    state: &State,
    number: u32,
    pen: Point,
    shown: &Shown,
) -> Mem<Option<Mark>>
    requires stage { IsStage stage.now }
    requires fonts { IsLayoutFontSet fonts.now.fonts }
    requires state { IsState (length view.now.names) state.now }
    requires number { number ≡ font_of_state fonts.now.fonts view.now.names state.now }
    requires within { number < length fonts.now.fonts }
    requires pen { IsPointWithin (max_block_corner + max_block) pen }
    requires shown { IsShownKind shown.now.kind }
    ensures value { IfOk result (λ mark. mark ≡ rule.mark_by stage.now fonts.now.fonts view.now state.now pen shown.now.kind) }
    ensures range { IfOk result (λ mark. IfSome mark rule.IsMark) }
{
    if let ShownKind::Drawing(path) = &shown.kind {
        return drawing_mark(alloc, stage, state, pen, path);
    }
    match char_of(shown, view.wrap) {
        Some(c) => Ok(char_mark(stage, fonts, view, state, number, pen, c)),
        None => Ok(None),
    }
}

/// Where the pen of a character of a line stands.
fn pen_on(stage: &Stage, line: &Line, placed: &Placed) -> Point
    requires corner { IsPointWithin max_block_corner stage.now.corner }
    requires x { IsBlockSide placed.now.x }
    requires baseline { IsBlockSide line.now.baseline }
    ensures value { result ≡ rule.pen_on stage.now line.now placed.now }
    ensures within { IsPointWithin (max_block_corner + max_block) result }
{
    Point {
        x: sum(stage.corner.x, placed.x),
        y: sum(stage.corner.y, line.baseline),
    }
}

/// What an item of a line shows.
pub(crate) fn shown_of<'a>(view: &'a EventView, placed: &Placed) -> &'a Shown
    requires view { IsView view.now }
    requires item { placed.now.item < length view.now.items }
    ensures value { result.now ≡ shown_of view.now placed.now }
    ensures range { IsShownItem (length view.now.states) result.now }
{
    &view.items.as_slice()[placed.item]
}

/// The state of an item of a line.
pub(crate) fn state_of<'a>(view: &'a EventView, placed: &Placed) -> &'a State
    requires view { IsView view.now }
    requires item { placed.now.item < length view.now.items }
    ensures value { result.now ≡ state_of view.now placed.now }
    ensures range { IsState (length view.now.names) result.now }
{
    &view.states.as_slice()[shown_of(view, placed).state as usize]
}

/// The place of the font of its state.
fn number_of(fonts: &FontSet, numbers: &[u32], view: &EventView, placed: &Placed) -> u32
    requires fonts { IsLayoutFontSet fonts.now.fonts }
    requires numbers { numbers.now ≡ state_fonts fonts.now.fonts view.now }
    requires view { IsView view.now }
    requires item { placed.now.item < length view.now.items }
    ensures value { result ≡ font_of_state fonts.now.fonts view.now.names (state_of view.now placed.now) }
    ensures within { result < length fonts.now.fonts }
{
    numbers[shown_of(view, placed).state as usize]
}

/// The mark of an item of a line, if it leaves any. The states have the fonts of these places.
fn mark_of(
    alloc: Global,
    stage: &Stage,
    fonts: &FontSet,
    numbers: &[u32],
    view: &EventView,
    line: &Line,
    placed: &Placed,
) -> Mem<Option<Mark>>
    requires stage { IsStage stage.now }
    requires fonts { IsLayoutFontSet fonts.now.fonts }
    requires numbers { numbers.now ≡ state_fonts fonts.now.fonts view.now }
    requires view { IsView view.now }
    requires baseline { IsBlockSide line.now.baseline }
    requires item { IsBlockItem (length view.now.items) placed.now }
    ensures value { IfOk result (λ mark. mark ≡ rule.mark_of stage.now fonts.now.fonts view.now line.now placed.now) }
    ensures range { IfOk result (λ mark. IfSome mark rule.IsMark) }
{
    mark_by(
        alloc,
        stage,
        fonts,
        view,
        state_of(view, placed),
        number_of(fonts, numbers, view, placed),
        pen_on(stage, line, placed),
        shown_of(view, placed),
    )
}

/// Adds a mark, if there is one.
fn push_mark(marks: &mut Items<Mark>, mark: Option<Mark>) -> Mem<()>
    ensures { OnOk result (marks.new ≡ marks.old ++ option_to_list mark) }
{
    match mark {
        Some(mark) => marks.push(mark),
        None => Ok(()),
    }
}

/// The marks of some items of a line, in order. The states have the fonts of these places.
pub(crate) fn marks_of(
    alloc: Global,
    stage: &Stage,
    fonts: &FontSet,
    numbers: &[u32],
    view: &EventView,
    line: &Line,
    items: &[Placed],
) -> Mem<Items<Mark>>
    requires stage { IsStage stage.now }
    requires fonts { IsLayoutFontSet fonts.now.fonts }
    requires numbers { numbers.now ≡ state_fonts fonts.now.fonts view.now }
    requires view { IsView view.now }
    requires baseline { IsBlockSide line.now.baseline }
    requires items { All (IsBlockItem (length view.now.items)) items.now }
    ensures value { IfOk result (λ marks. marks ≡ rule.marks_of stage.now fonts.now.fonts view.now line.now items.now) }
    ensures range { IfOk result (λ marks. All rule.IsMark marks) }
{
    let mut marks = Items::new(alloc);
    for placed in items {
        push_mark(
            &mut marks,
            mark_of(alloc, stage, fonts, numbers, view, line, placed)?,
        )?;
    }
    Ok(marks)
}
