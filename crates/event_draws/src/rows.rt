//! The draws of an event: shadows, then borders and boxes, then fills.

ghost use Rattle.std.specs.Prelude.{◌≡◌, ◌++◌, length, flat_map, All, OnOk, IfSome};
ghost use Rattle.mask_keys.specs.Keys.{IsValidPlan};
ghost use Rattle.mask_keys.specs.Outlines.{glyph_counts};
ghost use Rattle.override_tags.specs.Views.{IsView};
ghost use Rattle.text_layout.specs.Fonts.{IsLayoutFontSet};
ghost use Rattle.event_draws.specs.EventDraws as rule;
ghost use Rattle.event_draws.specs.Stages.{IsStage};

use crate::clip::clip_of;
use crate::draws::{add_box_border, add_box_shadow, add_run_border, add_run_fill, add_run_shadow};
use crate::runs::{Row, rows_of};
use crate::stage::Stage;
use ass_num::{Items, Mem};
use bdf_font::FontSet;
use mask_keys::{Clip, Draw};
use override_tags::EventView;
use std::alloc::Global;
use text_layout::Laid;

/// Whether a line has a box in place of borders (Advanced SubStation Alpha, "BorderStyle").
fn is_boxed(row: &Row) -> bool
    ensures { result ≡ rule.is_boxed row.now }
{
    row.state.border_style == 3
}

/// Adds the shadows of a line.
fn add_row_shadows(
    alloc: Global,
    stage: &Stage,
    clip: &Clip,
    row: &Row,
    draws: &mut Items<Draw>,
) -> Mem<()>
    requires stage { IsStage stage.now }
    requires row { rule.IsDrawnRow row.now }
    ensures { OnOk result (draws.new ≡ draws.old ++ rule.row_shadows stage.now clip.now row.now) }
{
    if is_boxed(row) {
        return add_box_shadow(alloc, stage, clip, &row.line, &row.state, draws);
    }
    for run in row.runs.as_slice() {
        add_run_shadow(alloc, stage, clip, false, run, draws)?;
    }
    Ok(())
}

/// Adds the borders of a line, or its box.
fn add_row_borders(
    alloc: Global,
    stage: &Stage,
    clip: &Clip,
    row: &Row,
    draws: &mut Items<Draw>,
) -> Mem<()>
    requires stage { IsStage stage.now }
    requires row { rule.IsDrawnRow row.now }
    ensures { OnOk result (draws.new ≡ draws.old ++ rule.row_borders stage.now clip.now row.now) }
{
    if is_boxed(row) {
        return add_box_border(alloc, stage, clip, &row.line, &row.state, draws);
    }
    for run in row.runs.as_slice() {
        add_run_border(alloc, stage, clip, false, run, draws)?;
    }
    Ok(())
}

/// Adds the fills of a line.
fn add_row_fills(
    alloc: Global,
    stage: &Stage,
    clip: &Clip,
    row: &Row,
    draws: &mut Items<Draw>,
) -> Mem<()>
    requires stage { IsStage stage.now }
    requires row { rule.IsDrawnRow row.now }
    ensures { OnOk result (draws.new ≡ draws.old ++ rule.row_fills stage.now clip.now row.now) }
{
    let boxed = is_boxed(row);
    for run in row.runs.as_slice() {
        add_run_fill(alloc, stage, clip, boxed, run, draws)?;
    }
    Ok(())
}

/// Adds the shadows of lines.
fn add_shadows(
    alloc: Global,
    stage: &Stage,
    clip: &Clip,
    rows: &[Row],
    draws: &mut Items<Draw>,
) -> Mem<()>
    requires stage { IsStage stage.now }
    requires rows { All rule.IsDrawnRow rows.now }
    ensures { OnOk result (draws.new ≡ draws.old ++ flat_map (rule.row_shadows stage.now clip.now) rows.now) }
{
    for row in rows {
        add_row_shadows(alloc, stage, clip, row, draws)?;
    }
    Ok(())
}

/// Adds the borders of lines, and their boxes.
fn add_borders(
    alloc: Global,
    stage: &Stage,
    clip: &Clip,
    rows: &[Row],
    draws: &mut Items<Draw>,
) -> Mem<()>
    requires stage { IsStage stage.now }
    requires rows { All rule.IsDrawnRow rows.now }
    ensures { OnOk result (draws.new ≡ draws.old ++ flat_map (rule.row_borders stage.now clip.now) rows.now) }
{
    for row in rows {
        add_row_borders(alloc, stage, clip, row, draws)?;
    }
    Ok(())
}

/// Adds the fills of lines.
fn add_fills(
    alloc: Global,
    stage: &Stage,
    clip: &Clip,
    rows: &[Row],
    draws: &mut Items<Draw>,
) -> Mem<()>
    requires stage { IsStage stage.now }
    requires rows { All rule.IsDrawnRow rows.now }
    ensures { OnOk result (draws.new ≡ draws.old ++ flat_map (rule.row_fills stage.now clip.now) rows.now) }
{
    for row in rows {
        add_row_fills(alloc, stage, clip, row, draws)?;
    }
    Ok(())
}

/// Adds the draws of lines: first all shadows, then borders and boxes, then fills, each in the order of the text.
fn add_draws(
    alloc: Global,
    stage: &Stage,
    clip: &Clip,
    rows: &[Row],
    draws: &mut Items<Draw>,
) -> Mem<()>
    requires stage { IsStage stage.now }
    requires rows { All rule.IsDrawnRow rows.now }
    ensures { OnOk result (draws.new ≡ draws.old ++ rule.draws_of_rows stage.now clip.now rows.now) }
{
    add_shadows(alloc, stage, clip, rows, draws)?;
    add_borders(alloc, stage, clip, rows, draws)?;
    add_fills(alloc, stage, clip, rows, draws)
}

/// Adds the draws of an event that is laid out and stands there: first all shadows, then borders and boxes, then fills, each in the
/// order of the text.
pub fn add_event_draws(
    alloc: Global,
    stage: &Stage,
    fonts: &FontSet,
    view: &EventView,
    laid: &Laid,
    draws: &mut Items<Draw>,
) -> Mem<()>
    requires stage { IsStage stage.now }
    requires fonts { IsLayoutFontSet fonts.now.fonts }
    requires view { IsView view.now }
    requires laid { rule.IsDrawnLayout (length view.now.items) laid.now }
    ensures draws { OnOk result (draws.new ≡ draws.old ++ rule.event_draws stage.now fonts.now.fonts view.now laid.now) }
    ensures valid { OnOk result (IsValidPlan (glyph_counts fonts.now.fonts) draws.old → IsValidPlan (glyph_counts fonts.now.fonts) draws.new) }
{
    let clip = clip_of(alloc, &stage.scales, &view.clip)?;
    let rows = rows_of(alloc, stage, fonts, view, laid)?;
    add_draws(alloc, stage, &clip, rows.as_slice(), draws)
}
