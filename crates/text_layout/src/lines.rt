//! Lines with their places in the block, and their items.

ghost use Rattle.std.specs.Prelude.{◌≡◌, ◌≤◌, ◌<◌, ◌++◌, ◌≤ℤ◌, pos, length, All, IfOk, OnOk};
ghost use Rattle.ass_num.specs.Limits.{max_text_bytes};
ghost use Rattle.override_tags.specs.Views.{IsShownItem};
ghost use Rattle.text_layout.specs.Limits.{max_block, max_block_lines, max_line};
ghost use Rattle.text_layout.specs.Anchors.{IsBlockSide};
ghost use Rattle.text_layout.specs.Extents.{IsItemExtent};
ghost use Rattle.text_layout.specs.Metrics.{IsMetrics};
ghost use Rattle.text_layout.specs.Lines.{IsLineExtent, IsLineWithin, advances_of, blank_extent, block_height, block_width, joined_extent, line_at};
ghost use Rattle.text_layout.specs.Lines.{line_extent, line_extents, lines_from, placed_from, placed_in};
ghost use Rattle.text_layout.specs.Spans.{AreSpans, IsSpanWithin};

use crate::anchors::{AnchorSide, edge_within};
use crate::extents::Extent;
use crate::laid::{Line, Placed};
use crate::metrics::Metrics;
use crate::spans::Span;
use ass_num::{Fix, Items, Mem};
use override_tags::Shown;
use std::alloc::Global;

/// The extent of a line without items, which the item at `place` ends, or the end of the text: that of its state, or of the last one.
fn blank_extent(metrics: &[Metrics], items: &[Shown], place: usize) -> Extent
    requires states { 0 < length metrics.now }
    requires metrics { All IsMetrics metrics.now }
    requires items { All (IsShownItem (length metrics.now)) items.now }
    ensures value { result ≡ blank_extent metrics.now items.now place }
    ensures range { IsLineExtent result }
{
    let state = if place < items.len() {
        items[place].state as usize
    } else {
        metrics.len() - 1
    };
    Extent {
        advance: 0,
        ascent: metrics[state].ascent,
        descent: metrics[state].descent,
    }
}

/// The extent of items side by side.
fn joined_extent(extents: &[Extent]) -> Extent
    requires items { length extents.now ≤ max_text_bytes }
    requires extents { All IsItemExtent extents.now }
    ensures value { result ≡ joined_extent extents.now }
    ensures range { IsLineExtent result }
{
    let mut advance = 0;
    let mut ascent: Fix = 0;
    let mut descent: Fix = 0;
    for extent in extents {
        advance += extent.advance;
        ascent = ascent.max(extent.ascent);
        descent = descent.max(extent.descent);
    }
    Extent {
        advance,
        ascent,
        descent,
    }
}

/// The extent of a line.
fn line_extent(metrics: &[Metrics], items: &[Shown], extents: &[Extent], span: Span) -> Extent
    requires states { 0 < length metrics.now }
    requires metrics { All IsMetrics metrics.now }
    requires items { All (IsShownItem (length metrics.now)) items.now }
    requires few { length extents.now ≤ max_text_bytes }
    requires extents { All IsItemExtent extents.now }
    requires span { IsSpanWithin (length extents.now) span }
    ensures value { result ≡ line_extent metrics.now items.now extents.now span }
    ensures range { IsLineExtent result }
{
    if span.first == span.last {
        return blank_extent(metrics, items, span.last);
    }
    joined_extent(&extents[span.first..span.last])
}

/// The extents of all lines.
pub(crate) fn line_extents(
    alloc: Global,
    metrics: &[Metrics],
    items: &[Shown],
    extents: &[Extent],
    spans: &[Span],
) -> Mem<Vec<Extent>>
    requires states { 0 < length metrics.now }
    requires metrics { All IsMetrics metrics.now }
    requires items { All (IsShownItem (length metrics.now)) items.now }
    requires few { length extents.now ≤ max_text_bytes }
    requires extents { All IsItemExtent extents.now }
    requires spans { All (IsSpanWithin (length extents.now)) spans.now }
    ensures value { IfOk result (λ lines. lines.items ≡ line_extents metrics.now items.now extents.now spans.now) }
    ensures range { IfOk result (λ lines. All IsLineExtent lines.items) }
{
    let mut lines = Vec::with_capacity(alloc, spans.len())?;
    for span in spans {
        lines.push(line_extent(metrics, items, extents, *span))?;
    }
    Ok(lines)
}

/// The width of the widest line.
pub(crate) fn block_width(extents: &[Extent]) -> Fix
    requires { All IsLineExtent extents.now }
    ensures value { result ≡ block_width extents.now }
    ensures from_zero { pos 0 ≤ℤ result }
    ensures most { result ≤ℤ pos max_line }
    ensures widest { All (λ extent. extent.advance ≤ℤ result) extents.now }
{
    let mut width: Fix = 0;
    for extent in extents {
        width = width.max(extent.advance);
    }
    width
}

/// The height of all lines together.
pub(crate) fn block_height(extents: &[Extent]) -> Fix
    requires few { length extents.now ≤ max_block_lines }
    requires extents { All IsLineExtent extents.now }
    ensures value { result ≡ block_height extents.now }
    ensures range { IsBlockSide result }
{
    let mut height = 0;
    for extent in extents {
        height += extent.ascent + extent.descent;
    }
    height
}

/// A line whose top is here, in a block of this width.
fn line_at(span: Span, extent: &Extent, top: Fix, column: AnchorSide, width: Fix) -> Line
    requires extent { IsLineExtent extent.now }
    requires top { IsBlockSide top }
    requires width { width ≤ℤ pos max_line }
    requires wide { extent.now.advance ≤ℤ width }
    ensures { result ≡ line_at column width span extent.now top }
{
    Line {
        first: span.first,
        last: span.last,
        top,
        baseline: top + extent.ascent,
        left: edge_within(column, width - extent.advance),
        width: extent.advance,
        height: extent.ascent + extent.descent,
    }
}

/// The lines, one below the other.
pub(crate) fn lines_of(
    alloc: Global,
    spans: &[Span],
    extents: &[Extent],
    column: AnchorSide,
    width: Fix,
) -> Mem<Items<Line>>
    requires few { length spans.now ≤ max_block_lines }
    requires count { length extents.now ≡ length spans.now }
    requires extents { All IsLineExtent extents.now }
    requires width { width ≤ℤ pos max_line }
    requires wide { All (λ extent. extent.advance ≤ℤ width) extents.now }
    ensures { IfOk result (λ lines. lines ≡ lines_from column width (pos 0) spans.now extents.now) }
{
    let mut lines = Items::with_capacity(alloc, spans.len())?;
    let mut top = 0;
    for (k, span) in spans.iter().enumerate() {
        let line = line_at(*span, &extents[k], top, column, width);
        top += line.height;
        lines.push(line)?;
    }
    Ok(lines)
}

/// Adds the items of a line.
fn add_items(line: &Line, number: usize, extents: &[Extent], placed: &mut Items<Placed>) -> Mem<()>
    requires few { length extents.now ≤ max_text_bytes }
    requires extents { All IsItemExtent extents.now }
    requires line { IsLineWithin (length extents.now) (pos max_line) (pos max_block) line.now }
    ensures { OnOk result (placed.new ≡ placed.old ++ placed_in (advances_of extents.now) number line.now) }
{
    let mut x = line.left;
    for item in line.first..line.last {
        let advance = extents[item].advance;
        placed.push(Placed {
            item,
            line: number,
            x,
            advance,
        })?;
        x += advance;
    }
    Ok(())
}

/// The items of all lines.
pub(crate) fn placed_items(alloc: Global, lines: &[Line], extents: &[Extent]) -> Mem<Items<Placed>>
    requires few { length extents.now ≤ max_text_bytes }
    requires extents { All IsItemExtent extents.now }
    requires lines { All (IsLineWithin (length extents.now) (pos max_line) (pos max_block)) lines.now }
    ensures { IfOk result (λ placed. placed ≡ placed_from (advances_of extents.now) 0 lines.now) }
{
    let mut placed = Items::with_capacity(alloc, extents.len())?;
    for (number, line) in lines.iter().enumerate() {
        add_items(line, number, extents, &mut placed)?;
    }
    Ok(placed)
}
