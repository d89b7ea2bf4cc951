//! The layout of what an event shows.

ghost use Rattle.std.specs.Prelude.{◌≡◌, ◌+◌, ◌≤◌, ◌<◌, length, All, IfOk};
ghost use Rattle.ass_num.specs.Limits.{max_text_bytes};
ghost use Rattle.ass_events.specs.Ranges.{IsEvent};
ghost use Rattle.ass_script.specs.Ranges.{IsScript};
ghost use Rattle.frame_view.specs.FrameScales.{IsScales};
ghost use Rattle.override_tags.specs.Views.{IsShownItem, IsView};
ghost use Rattle.text_layout.specs.Extents.{IsItemExtent};
ghost use Rattle.text_layout.specs.Fonts.{IsLayoutFontSet};
ghost use Rattle.text_layout.specs.Metrics.{IsMetrics};
ghost use Rattle.text_layout.specs.Layouts.{IsLaid, IsLaidBy, IsWithinBlock, laid_out};
ghost use Rattle.text_layout.specs.Lines.{advances_of};
ghost use Rattle.text_layout.specs.Settings.{IsSetting};
ghost use Rattle.text_layout.specs.Spans.{AreSpans};

use crate::anchors::{column_of, margins_of, wrapping_width};
use crate::extents::{Extent, item_extents};
use crate::laid::Laid;
use crate::lines::{block_height, block_width, line_extents, lines_of, placed_items};
use crate::metrics::{Metrics, all_metrics};
use crate::setting::Setting;
use crate::spans::{Span, line_spans};
use crate::typeset::line_scales;
use ass_events::Event;
use ass_num::{Fix, Mem};
use ass_script::Script;
use bdf_font::FontSet;
use frame_view::Scales;
use override_tags::EventView;
use std::alloc::Global;

/// The advances of all items.
fn advances_of(alloc: Global, extents: &[Extent]) -> Mem<Vec<Fix>>
    ensures { IfOk result (λ advances. advances.items ≡ advances_of extents.now) }
{
    let mut advances = Vec::with_capacity(alloc, extents.len())?;
    for extent in extents {
        advances.push(extent.advance)?;
    }
    Ok(advances)
}

/// Puts the items into their lines, and the lines into the block.
fn laid_out(
    alloc: Global,
    view: &EventView,
    metrics: &[Metrics],
    extents: &[Extent],
    spans: &[Span],
) -> Mem<Laid>
    requires states { 0 < length metrics.now }
    requires metrics { All IsMetrics metrics.now }
    requires items { All (IsShownItem (length metrics.now)) view.now.items }
    requires few { length extents.now ≤ max_text_bytes }
    requires extents { All IsItemExtent extents.now }
    requires spans { AreSpans 0 (length extents.now + 1) spans.now }
    ensures value { IfOk result (λ laid. laid ≡ laid_out view.now metrics.now extents.now spans.now) }
    ensures within { IfOk result (IsWithinBlock (length extents.now)) }
{
    let heights = line_extents(alloc, metrics, view.items.as_slice(), extents, spans)?;
    let width = block_width(heights.as_slice());
    let height = block_height(heights.as_slice());
    let column = column_of(view.align);
    let lines = lines_of(alloc, spans, heights.as_slice(), column, width)?;
    let placed = placed_items(alloc, lines.as_slice(), extents)?;
    Ok(Laid {
        lines,
        placed,
        width,
        height,
    })
}

/// Lays out what an event shows by the scales of its lines.
fn layout_by(
    alloc: Global,
    script: &Script,
    fonts: &FontSet,
    event: &Event,
    view: &EventView,
    scales: &Scales,
) -> Mem<Laid>
    requires script { IsScript script.now }
    requires fonts { IsLayoutFontSet fonts.now.fonts }
    requires event { IsEvent event.now }
    requires view { IsView view.now }
    requires scales { IsScales scales.now }
    ensures laid { IfOk result (IsLaidBy script.now fonts.now.fonts event.now view.now scales.now) }
    ensures within { IfOk result (IsWithinBlock (length view.now.items)) }
{
    let items = view.items.as_slice();
    let metrics = all_metrics(alloc, scales, fonts, view)?;
    let extents = item_extents(alloc, fonts, metrics.as_slice(), view.wrap, items)?;
    let advances = advances_of(alloc, extents.as_slice())?;
    let max = wrapping_width(&margins_of(script, event), scales);
    let spans = line_spans(alloc, items, view.wrap, advances.as_slice(), max)?;
    laid_out(
        alloc,
        view,
        metrics.as_slice(),
        extents.as_slice(),
        spans.as_slice(),
    )
}

/// Lays out what an event shows: its characters and drawings in lines, and the lines in a block.
pub fn layout(alloc: Global, setting: &Setting<'_>, event: &Event, view: &EventView) -> Mem<Laid>
    requires setting { IsSetting setting.now }
    requires event { IsEvent event.now }
    requires view { IsView view.now }
    ensures laid { IfOk result (IsLaid setting.now.script setting.now.fonts event.now view.now setting.now.frame) }
    ensures within { IfOk result (IsWithinBlock (length view.now.items)) }
{
    let scales = line_scales(&setting.script.header(), &setting.frame, view);
    layout_by(alloc, setting.script, setting.fonts, event, view, &scales)
}
