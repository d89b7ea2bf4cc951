//! Paragraphs between hard breaks, and their lines.

ghost use Rattle.std.specs.Prelude.{◌≡◌, ◌≤◌, ◌+◌, ◌-◌, ◌++◌, List, length, map, All, IfOk, OnOk};
ghost use Rattle.ass_num.specs.Limits.{max_text_bytes};
ghost use Rattle.line_layout.specs.Breaks.{IsItemWidth};
ghost use Rattle.text_layout.specs.declared.spans.Span.{Span};
ghost use Rattle.text_layout.specs.Kinds.{roles_of};
ghost use Rattle.text_layout.specs.Spans.{ArePlacesInOrder, AreLines, AreLinesOf, AreSpans, paragraphs_of, places_of, spans_between};

use crate::kinds::{BreakRole, role_of};
use ass_num::{Fix, Mem};
use line_layout::choose_breaks;
use override_tags::Shown;
use std::alloc::Global;

/// The items from `first` up to `last`.
#[derive(Clone, Copy, Debug, PartialEq, Eq)]
pub struct Span {
    pub first: usize,
    pub last: usize,
}

/// The places of the items that have a role.
fn places_of(alloc: Global, items: &[Shown], wrap: u8, role: BreakRole) -> Mem<Vec<usize>>
    ensures value { IfOk result (λ places. places.items ≡ places_of role (roles_of wrap items.now)) }
    ensures order { IfOk result (λ places. ArePlacesInOrder 0 (length items.now) places.items) }
{
    let mut places = Vec::new(alloc);
    for (place, shown) in items.iter().enumerate() {
        if role_of(shown, wrap) == role {
            places.push(place)?;
        }
    }
    Ok(places)
}

/// Adds the items from `from` up to `to`, cut at places that are counted from `from`; what stands at a place is in no span.
fn add_spans(from: usize, to: usize, places: &[usize], spans: &mut Vec<Span>) -> Mem<()>
    requires items { to ≤ max_text_bytes }
    requires ordered { from ≤ to }
    requires order { ArePlacesInOrder 0 (to - from) places.now }
    ensures value { OnOk result (spans.new.items ≡ spans.old.items ++ spans_between from to (map (λ place. from + place) places.now)) }
{
    let mut first = from;
    for place in places {
        let last = from + *place;
        spans.push(Span { first, last })?;
        first = last + 1;
    }
    spans.push(Span { first, last: to })?;
    Ok(())
}

/// The paragraphs: what stands between hard breaks.
fn paragraphs(alloc: Global, items: &[Shown], wrap: u8) -> Mem<Vec<Span>>
    requires { length items.now ≤ max_text_bytes }
    ensures value { IfOk result (λ spans. spans.items ≡ paragraphs_of (roles_of wrap items.now)) }
    ensures order { IfOk result (λ spans. AreSpans 0 (length items.now + 1) spans.items) }
{
    let breaks = places_of(alloc, items, wrap, BreakRole::Break)?;
    let mut paragraphs = Vec::with_capacity(alloc, breaks.len() + 1)?;
    add_spans(0, items.len(), breaks.as_slice(), &mut paragraphs)?;
    Ok(paragraphs)
}

/// Adds the lines of a paragraph.
fn add_lines(
    alloc: Global,
    items: &[Shown],
    wrap: u8,
    advances: &[Fix],
    max: Fix,
    paragraph: Span,
    lines: &mut Vec<Span>,
) -> Mem<()>
    requires items { length items.now ≤ max_text_bytes }
    requires advances { length advances.now ≡ length items.now }
    requires widths { All IsItemWidth advances.now }
    requires wrap { wrap ≤ 3 }
    requires ordered { paragraph.first ≤ paragraph.last }
    requires within { paragraph.last ≤ length items.now }
    ensures lines { OnOk result ((front : List Span) × AreLinesOf wrap (roles_of wrap items.now) advances.now max paragraph front
        × AreSpans paragraph.first (paragraph.last + 1) front × (lines.new.items ≡ lines.old.items ++ front)) }
{
    let shown = &items[paragraph.first..paragraph.last];
    let widths = &advances[paragraph.first..paragraph.last];
    let spaces = places_of(alloc, shown, wrap, BreakRole::Space)?;
    let chosen = choose_breaks(alloc, widths, spaces.as_slice(), max, wrap)?;
    add_spans(paragraph.first, paragraph.last, chosen.as_slice(), lines)?;
    Ok(())
}

/// The items of each line.
pub fn line_spans(
    alloc: Global,
    items: &[Shown],
    wrap: u8,
    advances: &[Fix],
    max: Fix,
) -> Mem<Vec<Span>>
    requires items { length items.now ≤ max_text_bytes }
    requires advances { length advances.now ≡ length items.now }
    requires widths { All IsItemWidth advances.now }
    requires wrap { wrap ≤ 3 }
    ensures lines { IfOk result (λ lines. AreLines wrap (roles_of wrap items.now) advances.now max (paragraphs_of (roles_of wrap items.now)) lines.items) }
    ensures order { IfOk result (λ lines. AreSpans 0 (length items.now + 1) lines.items) }
{
    let paragraphs = paragraphs(alloc, items, wrap)?;
    let mut lines = Vec::new(alloc);
    for paragraph in paragraphs.as_slice() {
        add_lines(alloc, items, wrap, advances, max, *paragraph, &mut lines)?;
    }
    Ok(lines)
}
