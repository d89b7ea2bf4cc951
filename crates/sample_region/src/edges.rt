//! The edges of an outline, each from its upper end down.

ghost use Rattle.std.specs.Prelude.{◌≡◌, ℤ, ◌++◌, flat_map, IfOk, OnOk, IsPermutation};
ghost use Rattle.ass_num.specs.Limits.{IsOutline};
ghost use Rattle.ass_num.specs.Winding.{edges, edges_of, inside};
ghost use Rattle.sample_region.specs.Crossings.{IsSweepable, is_inside};
ghost use Rattle.sample_region.specs.Edges.{down_from, IsOrdered};

use ass_num::{Mem, Outline, Point};
use std::alloc::Global;

/// An edge that isn't level, from its upper to its lower end, and whether the ring goes down along it.
#[derive(Clone, Copy)]
pub struct SweepEdge {
    pub upper: Point,
    pub lower: Point,
    pub down: bool,
}

/// Adds the edge from a to b, unless it is level: then it crosses no row.
fn add_edge(a: Point, b: Point, edges: &mut Vec<SweepEdge>) -> Mem<()>
    ensures { OnOk result (edges.new.items ≡ edges.old.items ++ down_from (a, b)) }
{
    if a.y < b.y {
        edges.push(SweepEdge {
            upper: a,
            lower: b,
            down: true,
        })?;
        return Ok(());
    }
    if b.y < a.y {
        edges.push(SweepEdge {
            upper: b,
            lower: a,
            down: false,
        })?;
        return Ok(());
    }
    Ok(())
}

/// Adds the edges of a closed ring.
fn add_ring(ring: &[Point], list: &mut Vec<SweepEdge>) -> Mem<()>
    ensures { OnOk result (list.new.items ≡ list.old.items ++ flat_map down_from (edges ring.now)) }
{
    let [first, rest @ ..] = ring else {
        return Ok(());
    };
    let mut last = *first;
    for p in rest {
        add_edge(last, *p, list)?;
        last = *p;
    }
    add_edge(last, *first, list)
}

/// The edges of an outline, ring by ring.
fn list_edges(alloc: Global, outline: &Outline) -> Mem<Vec<SweepEdge>>
    ensures { IfOk result (λ list. list.items ≡ flat_map down_from (edges_of outline.now.rings)) }
{
    let mut list = Vec::with_capacity(alloc, outline.rings.all_items().len())?;
    for k in 0..outline.rings.len() {
        add_ring(outline.rings.get(k), &mut list)?;
    }
    Ok(list)
}

fn sort(list: &mut Vec<SweepEdge>)
    ensures permutation { IsPermutation list.old.items list.new.items }
    ensures ordered { IsOrdered list.new.items }
{
    list.sort_unstable_by_key(|e| e.upper.y);
}

/// The edges of an outline in the order of their upper ends.
pub fn ordered_edges(alloc: Global, outline: &Outline) -> Mem<Vec<SweepEdge>>
    requires { IsOutline outline.now.rings }
    ensures sweepable { IfOk result (λ list. IsSweepable list.items) }
    ensures insides { IfOk result (λ list. (i j : ℤ) → is_inside list.items i j ≡ inside outline.now.rings i j) }
{
    let mut list = list_edges(alloc, outline)?;
    sort(&mut list);
    Ok(list)
}
