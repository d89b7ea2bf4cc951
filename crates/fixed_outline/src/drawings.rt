//! Outlines of drawings.

ghost use Rattle.std.specs.Prelude.{◌≡◌, ◌∷◌, [], ◌++◌, map, All, IfOk, OnOk};
ghost use Rattle.ass_num.specs.Limits.{IsWithin, IsPointWithin, IsOutline, IsOutlinePoint};
ghost use Rattle.ass_num.specs.Paths.{IsPath};
ghost use Rattle.outline_points.specs.Limits.{max_length};
ghost use Rattle.outline_points.specs.Placing.{IsMatrix};
ghost use Rattle.outline_points.specs.Drawings.{path_rings};
ghost use Rattle.fixed_outline.specs.Figures.{placed_point, finished_rings, closed_rings, open_ring};

use ass_num::{Fix, FlatLists, Matrix, Mem, Outline, Path, Point, Seg};
use outline_points::{Turn, add_segment, end_point};
use std::alloc::Global;

/// A point shifted down, turned and held.
fn placed(p: Point, turn: &Turn, shift: Fix) -> Point
    requires point { IsPointWithin max_length p }
    requires shift { IsWithin max_length shift }
    ensures value { result ≡ placed_point turn.now.angle shift p }
    ensures within { IsOutlinePoint result }
{
    turn.outline_point(Point {
        x: p.x,
        y: p.y + shift,
    })
}

/// Shifts the points down, turns and holds them.
fn place(points: &mut [Point], turn: &Turn, shift: Fix)
    requires points { All (IsPointWithin max_length) points.old }
    requires shift { IsWithin max_length shift }
    ensures value { points.new ≡ map (placed_point turn.now.angle shift) points.old }
    ensures within { All IsOutlinePoint points.new }
{
    for p in points.iter_mut() {
        *p = placed(*p, turn, shift);
    }
}

/// Puts the points of a figure at the end of the rings, placed; there is no ring before the first figure.
fn finish(ring: &mut Vec<Point>, turn: &Turn, shift: Fix, rings: &mut FlatLists<Point>) -> Mem<()>
    requires points { All (IsPointWithin max_length) ring.old.items }
    requires shift { IsWithin max_length shift }
    ensures added { OnOk result (rings.new ≡ rings.old ++ map (map (placed_point turn.now.angle shift)) (finished_rings ring.old.items)) }
    ensures within { OnOk result (IsOutline rings.old → IsOutline rings.new) }
    ensures ring { OnOk result (ring.new.items ≡ []) }
{
    if ring.is_empty() {
        return Ok(());
    }
    place(ring.as_mut_slice(), turn, shift);
    rings.push(ring.as_slice())?;
    ring.clear();
    Ok(())
}

/// Ends a figure where the segment begins another.
fn begin_segment(
    seg: &Seg,
    ring: &mut Vec<Point>,
    turn: &Turn,
    shift: Fix,
    rings: &mut FlatLists<Point>,
) -> Mem<()>
    requires points { All (IsPointWithin max_length) ring.old.items }
    requires shift { IsWithin max_length shift }
    ensures added { OnOk result (rings.new ≡ rings.old ++ map (map (placed_point turn.now.angle shift)) (closed_rings seg.now ring.old.items)) }
    ensures within { OnOk result (IsOutline rings.old → IsOutline rings.new) }
    ensures ring { OnOk result (ring.new.items ≡ open_ring seg.now ring.old.items) }
{
    match seg {
        Seg::Move(_) => finish(ring, turn, shift, rings),
        Seg::Line(_) => Ok(()),
        Seg::Cubic(_, _, _) => Ok(()),
        Seg::Spline(_, _) => Ok(()),
    }
}

/// The rings of the figures of a drawing.
fn rings_of_segments(alloc: Global, segs: &[Seg], m: &Matrix, shift: Fix) -> Mem<FlatLists<Point>>
    requires path { IsPath segs.now }
    requires matrix { IsMatrix m.now }
    requires shift { IsWithin max_length shift }
    ensures value { IfOk result (λ rings. rings ≡ path_rings m.now shift segs.now) }
    ensures within { IfOk result IsOutline }
{
    let turn = Turn::new(m.turn);
    let mut rings = FlatLists::new(alloc);
    let mut ring = Vec::new(alloc);
    let mut vertex = Point { x: 0, y: 0 };
    for seg in segs {
        begin_segment(seg, &mut ring, &turn, shift, &mut rings)?;
        ring = add_segment(m, vertex, seg, ring)?;
        vertex = end_point(vertex, seg);
    }
    finish(&mut ring, &turn, shift, &mut rings)?;
    Ok(rings)
}

/// The outline of a drawing: its points scaled, its curves drawn as points, shifted down, turned and held.
/// Each figure is a ring (Aegisub tag reference, "Drawing tags").
pub fn outline_of_path(alloc: Global, path: &Path, m: &Matrix, shift: Fix) -> Mem<Outline>
    requires path { IsPath path.now.segs }
    requires matrix { IsMatrix m.now }
    requires shift { IsWithin max_length shift }
    ensures value { IfOk result (λ o. o.rings ≡ path_rings m.now shift path.now.segs) }
    ensures within { IfOk result (λ o. IsOutline o.rings) }
{
    let rings = rings_of_segments(alloc, path.segs.as_slice(), m, shift)?;
    Ok(Outline { rings })
}
