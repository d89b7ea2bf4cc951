//! Closed rings of given edges.

ghost use Rattle.std.specs.Prelude.{◌≡◌, ℕ, ◌+◌, ◌<◌, ◌≤◌, ◌++◌, [], Bool, true, false, length, map, replicate, sum_by, slice_index_or, IfOk, OnOk};
ghost use Rattle.std.specs.Prelude.{IsPermutation};
ghost use Rattle.ass_num.specs.Winding.{edges as ring_edges, edges_of};
ghost use Rattle.cancelled_edges.specs.Edges.{IsClosed, way};
ghost use Rattle.cancelled_edges.specs.Walks.{IsInPointOrder, IsNext, IsTakenWhole, untaken_sum};

use crate::edges::Edge;
use ass_num::{FlatLists, Mem, Point};
use std::alloc::Global;

/// The beginning of an edge, and the edge's place.
#[derive(Clone, Copy)]
pub struct Start {
    pub from: Point,
    pub edge: usize,
}

/// Brings edges into the order of their ends.
fn sort_by_end(edges: &mut Vec<Edge>)
    ensures permutation { IsPermutation edges.old.items edges.new.items }
    ensures in_order { IsInPointOrder (map (λ e. e.to) edges.new.items) }
{
    edges.sort_unstable_by_key(|e| (e.to.x, e.to.y));
}

/// Brings beginnings into the order of their points.
fn sort_by_beginning(starts: &mut Vec<Start>)
    ensures permutation { IsPermutation starts.old.items starts.new.items }
    ensures in_order { IsInPointOrder (map (λ s. s.from) starts.new.items) }
{
    starts.sort_unstable_by_key(|s| (s.from.x, s.from.y));
}

/// The places of the edges in the order of their beginnings: the edge at a place of the first list leads to the beginning
/// of the one that the second list has there.
fn next_edges(alloc: Global, edges: &[Edge]) -> Mem<Vec<usize>>
    requires closed { IsClosed edges.now }
    requires in_order { IsInPointOrder (map (λ e. e.to) edges.now) }
    ensures { IfOk result (λ next. IsNext edges.now next.items) }
{
    let mut starts = Vec::with_capacity(alloc, edges.len())?;
    for (k, e) in edges.iter().enumerate() {
        starts.push(Start {
            from: e.from,
            edge: k,
        })?;
    }
    sort_by_beginning(&mut starts);
    let mut next = Vec::with_capacity(alloc, edges.len())?;
    for start in &starts {
        next.push(start.edge)?;
    }
    Ok(next)
}

/// Walks from an edge along the next ones until it comes round.
fn walk(
    edges: &[Edge],
    next: &[usize],
    first: usize,
    taken: &mut [bool],
    ring: &mut Vec<Point>,
) -> Mem<()>
    requires next { IsNext edges.now next.now }
    requires first { first < length edges.now }
    requires free { slice_index_or taken.old first true ≡ false }
    requires whole { IsTakenWhole next.now taken.old }
    requires ring { ring.old.items ≡ [] }
    ensures whole { OnOk result (IsTakenWhole next.now taken.new) }
    ensures sums { OnOk result ((f : _) → sum_by f (ring_edges ring.new.items) + untaken_sum f edges.now taken.new ≡ untaken_sum f edges.now taken.old) }
    ensures kept { OnOk result ((k : ℕ) → slice_index_or taken.old k true ≡ true → slice_index_or taken.new k true ≡ true) }
    ensures first { OnOk result (slice_index_or taken.new first true ≡ true) }
{
    let mut place = first;
    loop {
        taken[place] = true;
        ring.push(edges[place].from)?;
        place = next[place];
        if place == first {
            return Ok(());
        }
    }
}

/// Closed rings of the edges, each edge once.
pub fn rings_of(alloc: Global, edges: Vec<Edge>) -> Mem<FlatLists<Point>>
    requires { IsClosed edges.items }
    ensures { IfOk result (λ rings. (f : _) → sum_by f (edges_of rings) ≡ sum_by (λ e. f (way e)) edges.items) }
{
    let mut edges = edges;
    sort_by_end(&mut edges);
    let next = next_edges(alloc, edges.as_slice())?;
    let mut rings = FlatLists::new(alloc);
    let mut taken = vec![in alloc; false; edges.len()]?;
    let mut ring = Vec::with_capacity(alloc, edges.len())?;
    for first in 0..edges.len() {
        if !taken[first] {
            walk(
                edges.as_slice(),
                next.as_slice(),
                first,
                taken.as_mut_slice(),
                &mut ring,
            )?;
            rings.push(ring.as_slice())?;
            ring.clear();
        }
    }
    Ok(rings)
}
