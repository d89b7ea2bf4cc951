//! The lines of an event with their runs.

ghost use Rattle.std.specs.Prelude.{◌≡◌, ◌≤◌, ◌<◌, ◌∷◌, length, take, drop, All, IfOk, OnOk, Some, ◌++◌, if◌then◌else◌};
ghost use Rattle.std.specs.Option.{option_to_list};
ghost use Rattle.ass_num.specs.Limits.{IsWithin};
ghost use Rattle.outline_points.specs.Limits.{max_length};
ghost use Rattle.override_tags.specs.Views.{IsView};
ghost use Rattle.text_layout.specs.Fonts.{IsLayoutFontSet, state_fonts};
ghost use Rattle.event_draws.specs.Draws.{IsBlockLine, IsDrawnRun};
ghost use Rattle.event_draws.specs.EventDraws as rule;
ghost use Rattle.event_draws.specs.Items.{IsBlockItem};
ghost use Rattle.event_draws.specs.Runs.{are_joined, equal_states, is_drawing, runs_of};
ghost use Rattle.event_draws.specs.Stages.{IsStage};

use crate::lengths::sum;
use crate::marks::{Mark, marks_of, shown_of, state_of};
use crate::stage::Stage;
use ass_num::{Fix, Items, Mem};
use bdf_font::FontSet;
use draw_numbers::{Paint, fill_paint, is_swept};
use override_tags::{EventView, Shown, ShownKind, State, Syllable};
use std::alloc::Global;
use text_layout::{Laid, Line, Placed, state_fonts};

/// A run: items of a line with equal states, or one drawing. It has their state, what it is filled with, and what its items leave on
/// the frame.
#[derive(Debug, Drop)]
pub(crate) struct Run {
    pub state: State,
    pub paint: Paint,
    pub marks: Items<Mark>,
}

/// A line, the state of its first item, and its runs.
#[derive(Debug, Drop)]
pub(crate) struct Row {
    pub line: Line,
    pub state: State,
    pub runs: Items<Run>,
}

fn is_drawing(shown: &Shown) -> bool
    ensures { result ≡ is_drawing shown.now.kind }
{
    match &shown.kind {
        ShownKind::Drawing(_) => true,
        _ => false,
    }
}

/// Whether two states are equal.
fn equal_states(a: &State, b: &State) -> bool
    ensures { result ≡ equal_states a.now b.now }
{
    *a == *b
}

/// Whether an item belongs to the run of the one before it.
fn are_joined(view: &EventView, one: &Placed, next: &Placed) -> bool
    requires view { IsView view.now }
    requires one { one.now.item < length view.now.items }
    requires next { next.now.item < length view.now.items }
    ensures { result ≡ are_joined view.now one.now next.now }
{
    equal_states(state_of(view, one), state_of(view, next))
        && (!is_drawing(shown_of(view, one)) && !is_drawing(shown_of(view, next)))
}

/// How many items the first run of these has.
fn first_run(view: &EventView, items: &[Placed]) -> usize
    requires view { IsView view.now }
    requires items { All (IsBlockItem (length view.now.items)) items.now }
    requires some { 0 < length items.now }
    ensures least { 0 < result }
    ensures most { result ≤ length items.now }
    ensures run { runs_of view.now items.now ≡ take result items.now ∷ runs_of view.now (drop result items.now) }
{
    let mut count = 1;
    while count < items.len() && are_joined(view, &items[count - 1], &items[count]) {
        count += 1;
    }
    count
}

/// Whether two syllables are one.
fn same_syllable(a: Option<Syllable>, b: Option<Syllable>) -> bool
    ensures { result ≡ rule.same_syllable a b }
{
    match a {
        Some(a) => match b {
            Some(b) => a.index == b.index,
            None => false,
        },
        None => false,
    }
}

/// Whether an item belongs to the syllable of a state.
fn is_sung_with(view: &EventView, state: &State, placed: &Placed) -> bool
    requires view { IsView view.now }
    requires item { placed.now.item < length view.now.items }
    ensures { result ≡ rule.is_sung_with view.now state.now placed.now }
{
    same_syllable(state.sung, state_of(view, placed).sung)
}

/// Where an item begins in the frame.
fn left_of(stage: &Stage, view: &EventView, placed: &Placed) -> Fix
    requires stage { IsStage stage.now }
    requires item { IsBlockItem (length view.now.items) placed.now }
    ensures value { result ≡ rule.left_of stage.now placed.now }
    ensures within { IsWithin max_length result }
{
    sum(stage.corner.x, placed.x)
}

/// Where it ends.
fn right_of(stage: &Stage, view: &EventView, placed: &Placed) -> Fix
    requires stage { IsStage stage.now }
    requires item { IsBlockItem (length view.now.items) placed.now }
    ensures value { result ≡ rule.right_of stage.now placed.now }
    ensures within { IsWithin max_length result }
{
    sum(left_of(stage, view, placed), placed.advance)
}

/// Where the items of a line begin that belong to the syllable of a state.
fn sung_left(stage: &Stage, view: &EventView, items: &[Placed], state: &State) -> Fix
    requires stage { IsStage stage.now }
    requires view { IsView view.now }
    requires items { All (IsBlockItem (length view.now.items)) items.now }
    ensures value { result ≡ rule.left_end stage.now (rule.sung_with view.now state.now items.now) }
    ensures within { IsWithin max_length result }
{
    for placed in items {
        if is_sung_with(view, state, placed) {
            return left_of(stage, view, placed);
        }
    }
    0
}

/// Where the items end that come up to an item; `right` is where those before it end.
fn right_after(stage: &Stage, view: &EventView, state: &State, placed: &Placed, right: Fix) -> Fix
    requires stage { IsStage stage.now }
    requires view { IsView view.now }
    requires item { IsBlockItem (length view.now.items) placed.now }
    requires right { IsWithin max_length right }
    ensures value { result ≡ (if rule.is_sung_with view.now state.now placed.now then rule.right_of stage.now placed.now else right) }
    ensures within { IsWithin max_length result }
{
    if is_sung_with(view, state, placed) {
        return right_of(stage, view, placed);
    }
    right
}

/// Where they end.
fn sung_right(stage: &Stage, view: &EventView, items: &[Placed], state: &State) -> Fix
    requires stage { IsStage stage.now }
    requires view { IsView view.now }
    requires items { All (IsBlockItem (length view.now.items)) items.now }
    ensures value { result ≡ rule.right_end stage.now (rule.sung_with view.now state.now items.now) }
    ensures within { IsWithin max_length result }
{
    let mut right = 0;
    for placed in items {
        right = right_after(stage, view, state, placed, right);
    }
    right
}

/// Whether the syllable of a state is swept now.
fn is_swept_now(stage: &Stage, state: &State) -> bool
    ensures { result ≡ rule.is_swept_now stage.now.elapsed state.now.sung }
{
    match state.sung {
        Some(syllable) => is_swept(stage.elapsed, &syllable),
        None => false,
    }
}

/// What a run of a line of these items is filled with. The ends of its syllable count only while it is swept.
fn paint_of(stage: &Stage, view: &EventView, items: &[Placed], state: &State) -> Paint
    requires stage { IsStage stage.now }
    requires view { IsView view.now }
    requires items { All (IsBlockItem (length view.now.items)) items.now }
    ensures { result ≡ rule.paint_of stage.now view.now items.now state.now }
{
    if !is_swept_now(stage, state) {
        return fill_paint(stage.fade, stage.elapsed, state, 0, 0);
    }
    let left = sung_left(stage, view, items, state);
    let right = sung_right(stage, view, items, state);
    fill_paint(stage.fade, stage.elapsed, state, left, right)
}

/// A run of a line of these items.
fn run_of(
    alloc: Global,
    stage: &Stage,
    fonts: &FontSet,
    numbers: &[u32],
    view: &EventView,
    line: &Line,
    items: &[Placed],
    run: &[Placed],
) -> Mem<Run>
    requires stage { IsStage stage.now }
    requires fonts { IsLayoutFontSet fonts.now.fonts }
    requires numbers { numbers.now ≡ state_fonts fonts.now.fonts view.now }
    requires view { IsView view.now }
    requires line { IsBlockLine line.now }
    requires items { All (IsBlockItem (length view.now.items)) items.now }
    requires run { All (IsBlockItem (length view.now.items)) run.now }
    requires some { 0 < length run.now }
    ensures value { IfOk result (λ made. Some made ≡ rule.run_of stage.now fonts.now.fonts view.now line.now items.now run.now) }
    ensures range { IfOk result IsDrawnRun }
{
    let state = *state_of(view, &run[0]);
    let paint = paint_of(stage, view, items, &state);
    let marks = marks_of(alloc, stage, fonts, numbers, view, line, run)?;
    Ok(Run {
        state,
        paint,
        marks,
    })
}

/// The runs of a line of these items.
fn line_runs(
    alloc: Global,
    stage: &Stage,
    fonts: &FontSet,
    numbers: &[u32],
    view: &EventView,
    line: &Line,
    items: &[Placed],
) -> Mem<Items<Run>>
    requires stage { IsStage stage.now }
    requires fonts { IsLayoutFontSet fonts.now.fonts }
    requires numbers { numbers.now ≡ state_fonts fonts.now.fonts view.now }
    requires view { IsView view.now }
    requires line { IsBlockLine line.now }
    requires items { All (IsBlockItem (length view.now.items)) items.now }
    ensures value { IfOk result (λ runs. runs ≡ rule.line_runs stage.now fonts.now.fonts view.now line.now items.now) }
    ensures range { IfOk result (λ runs. All IsDrawnRun runs) }
{
    let mut runs = Items::new(alloc);
    let mut from = 0;
    while from < items.len() {
        let to = from + first_run(view, &items[from..]);
        let run = &items[from..to];
        runs.push(run_of(alloc, stage, fonts, numbers, view, line, items, run)?)?;
        from = to;
    }
    Ok(runs)
}

/// A line of these items with its runs; there is one item at least.
fn row_of(
    alloc: Global,
    stage: &Stage,
    fonts: &FontSet,
    numbers: &[u32],
    view: &EventView,
    line: &Line,
    items: &[Placed],
) -> Mem<Row>
    requires stage { IsStage stage.now }
    requires fonts { IsLayoutFontSet fonts.now.fonts }
    requires numbers { numbers.now ≡ state_fonts fonts.now.fonts view.now }
    requires view { IsView view.now }
    requires line { IsBlockLine line.now }
    requires items { All (IsBlockItem (length view.now.items)) items.now }
    requires some { 0 < length items.now }
    ensures value { IfOk result (λ made. Some made ≡ rule.row_by stage.now fonts.now.fonts view.now line.now items.now) }
    ensures range { IfOk result rule.IsDrawnRow }
{
    Ok(Row {
        line: *line,
        state: *state_of(view, &items[0]),
        runs: line_runs(alloc, stage, fonts, numbers, view, line, items)?,
    })
}

/// Adds a line of these items with its runs, if there are any.
fn push_row(
    alloc: Global,
    stage: &Stage,
    fonts: &FontSet,
    numbers: &[u32],
    view: &EventView,
    line: &Line,
    items: &[Placed],
    rows: &mut Items<Row>,
) -> Mem<()>
    requires stage { IsStage stage.now }
    requires fonts { IsLayoutFontSet fonts.now.fonts }
    requires numbers { numbers.now ≡ state_fonts fonts.now.fonts view.now }
    requires view { IsView view.now }
    requires line { IsBlockLine line.now }
    requires items { All (IsBlockItem (length view.now.items)) items.now }
    ensures value { OnOk result (rows.new ≡ rows.old ++ option_to_list (rule.row_by stage.now fonts.now.fonts view.now line.now items.now)) }
    ensures range { OnOk result (All rule.IsDrawnRow rows.old → All rule.IsDrawnRow rows.new) }
{
    if items.is_empty() {
        return Ok(());
    }
    rows.push(row_of(alloc, stage, fonts, numbers, view, line, items)?)
}

/// The lines that have items, with their runs.
pub(crate) fn rows_of(
    alloc: Global,
    stage: &Stage,
    fonts: &FontSet,
    view: &EventView,
    laid: &Laid,
) -> Mem<Items<Row>>
    requires stage { IsStage stage.now }
    requires fonts { IsLayoutFontSet fonts.now.fonts }
    requires view { IsView view.now }
    requires laid { rule.IsDrawnLayout (length view.now.items) laid.now }
    ensures value { IfOk result (λ rows. rows ≡ rule.draw_rows stage.now fonts.now.fonts view.now laid.now) }
    ensures range { IfOk result (λ rows. All rule.IsDrawnRow rows) }
{
    let numbers = state_fonts(alloc, fonts, view)?;
    let placed = laid.placed.as_slice();
    let mut rows = Items::new(alloc);
    let mut from = 0;
    for line in laid.lines.as_slice() {
        let to = from + (line.last - line.first);
        push_row(
            alloc,
            stage,
            fonts,
            numbers.as_slice(),
            view,
            line,
            &placed[from..to],
            &mut rows,
        )?;
        from = to;
    }
    Ok(rows)
}
