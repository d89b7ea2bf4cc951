//! The directed edges of an outline, and those that don't cancel.

ghost use Rattle.std.specs.Prelude.{◌≡◌, ◌++◌, flat_map, IfOk, OnOk, IsPermutation};
ghost use Rattle.ass_num.specs.Winding.{line, edges, edges_of};
ghost use Rattle.cancelled_edges.specs.Edges.{edge_from, IsAdded, IsBalanced, IsGrouped, HasNoOpposites, LeadsSomewhere, ends_of, way};
ghost use Rattle.cancelled_edges.specs.Cancelling.{same_edge, opposite};
ghost use Rattle.std.specs.Prelude.{All};

use ass_num::{Mem, Outline, Point};
use std::alloc::Global;

/// A directed edge.
#[derive(Clone, Copy, Debug, PartialEq, Eq)]
pub struct Edge {
    pub from: Point,
    pub to: Point,
}

/// Adds the edge from a to b, unless it leads nowhere.
fn add_edge(a: Point, b: Point, list: &mut Vec<Edge>) -> Mem<()>
    ensures { OnOk result (list.new.items ≡ list.old.items ++ edge_from (a, b)) }
{
    if a == b {
        return Ok(());
    }
    list.push(Edge { from: a, to: b })?;
    Ok(())
}

/// Adds the edges from a along the points to the last one.
fn add_line(a: Point, rest: &[Point], last: Point, list: &mut Vec<Edge>) -> Mem<()>
    ensures { OnOk result (list.new.items ≡ list.old.items ++ flat_map edge_from (line a rest.now last)) }
{
    let mut from = a;
    for p in rest {
        add_edge(from, *p, list)?;
        from = *p;
    }
    add_edge(from, last, list)?;
    Ok(())
}

/// Adds the edges of a closed ring.
fn add_ring(ring: &[Point], list: &mut Vec<Edge>) -> Mem<()>
    ensures { OnOk result (list.new.items ≡ list.old.items ++ flat_map edge_from (edges ring.now)) }
{
    if ring.is_empty() {
        return Ok(());
    }
    let first = ring[0];
    add_line(first, &ring[1..], first, list)?;
    Ok(())
}

/// The edges of an outline.
fn list_edges(alloc: Global, outline: &Outline) -> Mem<Vec<Edge>>
    ensures { IfOk result (λ list. list.items ≡ flat_map edge_from (edges_of outline.now.rings)) }
{
    let mut list = Vec::with_capacity(alloc, outline.rings.all_items().len())?;
    for k in 0..outline.rings.len() {
        add_ring(outline.rings.get(k), &mut list)?;
    }
    Ok(list)
}

/// The two ends of an edge, the one that comes first in the order of points first.
fn ends(e: &Edge) -> (i64, i64, i64, i64)
    ensures { result ≡ ends_of e.now }
{
    if e.from.x < e.to.x || (e.from.x == e.to.x && e.from.y < e.to.y) {
        return (e.from.x, e.from.y, e.to.x, e.to.y);
    }
    (e.to.x, e.to.y, e.from.x, e.from.y)
}

/// Brings edges with the same two ends together.
fn sort_by_ends(list: &mut Vec<Edge>)
    ensures permutation { IsPermutation list.old.items list.new.items }
    ensures grouped { IsGrouped list.new.items }
{
    list.sort_unstable_by_key(|e| ends(e));
}

/// Whether an edge is the opposite of another.
fn is_opposite(a: &Edge, b: &Edge) -> bool
    ensures { result ≡ same_edge (way a.now) (opposite (way b.now)) }
{
    a.from == b.to && a.to == b.from
}

/// Puts an edge at the end, or takes the last one away where it is the opposite.
fn add_or_cancel(kept: &mut Vec<Edge>, e: Edge) -> Mem<()>
    ensures { OnOk result (IsAdded kept.old.items e kept.new.items) }
{
    if kept.is_empty() {
        kept.push(e)?;
        return Ok(());
    }
    let count = kept.len() - 1;
    if is_opposite(&kept[count], &e) {
        kept.truncate(count);
        return Ok(());
    }
    kept.push(e)?;
    Ok(())
}

/// The edges of an outline that are left when each has cancelled an opposite one.
pub fn uncancelled_edges(alloc: Global, outline: &Outline) -> Mem<Vec<Edge>>
    ensures balanced { IfOk result (λ kept. IsBalanced (edges_of outline.now.rings) kept.items) }
    ensures single { IfOk result (λ kept. HasNoOpposites kept.items) }
{
    let mut list = list_edges(alloc, outline)?;
    sort_by_ends(&mut list);
    let mut kept = Vec::with_capacity(alloc, list.len())?;
    for e in &list {
        add_or_cancel(&mut kept, *e)?;
    }
    Ok(kept)
}
