//! Edges that are left of rings, in the order of their numbers.

use crate::rings::outline_of;
use crate::telling::shown;
use ass_num::{Mem, Outline, Point};
use cancelled_edges::cancelled;
use std::alloc::Global;

/// Adds each edge of a ring.
fn add_edges(ring: &[Point], edges: &mut Vec<(i64, i64, i64, i64)>) -> Mem<()> {
    if ring.is_empty() {
        return Ok(());
    }
    let mut from = ring[ring.len() - 1];
    for to in ring {
        edges.push((from.x, from.y, to.x, to.y))?;
        from = *to;
    }
    Ok(())
}

fn edges_told(alloc: Global, outline: &Outline) -> Mem<String> {
    let mut edges = Vec::new(alloc);
    for k in 0..outline.rings.len() {
        add_edges(outline.rings.get(k), &mut edges)?;
    }
    edges.sort_unstable();
    shown(alloc, &edges.as_slice())
}

/// What is left of rings.
pub fn left(alloc: Global, rings: &str) -> Mem<String> {
    let rings = outline_of(alloc, rings)?;
    let left = cancelled(alloc, &rings)?;
    edges_told(alloc, &left)
}
