//! The samples inside an outline.

ghost use Rattle.std.specs.Prelude.{◌≡◌, ℕ, ℤ, ◌≤◌, pos, ◌≤ℤ◌, ◌<ℤ◌, ◌+ℤ◌, ◌-ℤ◌, ◌*ℤ◌, true, All, IfOk, OnOk, neg_ℤ};
ghost use Rattle.ass_num.specs.Limits.{IsOutline, IsOutlinePoint, IsRegionWithin, max_coordinate};
ghost use Rattle.ass_num.specs.Regions.{is_canonical, member};
ghost use Rattle.ass_num.specs.Winding.{inside, place};
ghost use Rattle.sample_region.specs.Limits.{max_inside, max_swept};
ghost use Rattle.sample_region.specs.Crossings.{IsSweepable, is_inside};
ghost use Rattle.sample_region.specs.Heights.{IsHeightBetween};

use crate::edges::{SweepEdge, ordered_edges};
use crate::row::RowCrossings;
use crate::sweep::Sweep;
use ass_num::{Mem, Outline, Point, Region};
use region_rows::{Growth, RowRange};
use std::alloc::Global;

/// The farthest from 0 that a coordinate of an outline may be.
const MAX_COORDINATE: i64 = 262_144;

/// The least and the greatest height of points.
#[derive(Clone, Copy)]
struct Heights {
    low: i64,
    high: i64,
}

/// The heights, widened to those of a ring.
fn widened(heights: Heights, ring: &[Point]) -> Heights
    requires near { All IsOutlinePoint ring.now }
    requires low { neg_ℤ (pos max_coordinate) ≤ℤ heights.low }
    requires high { heights.high ≤ℤ pos max_coordinate }
    ensures between { All (IsHeightBetween result.low result.high) ring.now }
    ensures lower { result.low ≤ℤ heights.low }
    ensures higher { heights.high ≤ℤ result.high }
    ensures low { neg_ℤ (pos max_coordinate) ≤ℤ result.low }
    ensures high { result.high ≤ℤ pos max_coordinate }
{
    let mut around = heights;
    for p in ring {
        around = Heights {
            low: around.low.min(p.y),
            high: around.high.max(p.y),
        };
    }
    around
}

/// The heights of an outline; of no points the low one is greater.
fn find_heights(outline: &Outline) -> Heights
    requires { IsOutline outline.now.rings }
    ensures between { All (All (IsHeightBetween result.low result.high)) outline.now.rings }
    ensures low { neg_ℤ (pos max_coordinate) ≤ℤ result.low }
    ensures high { result.high ≤ℤ pos max_coordinate }
{
    let mut heights = Heights {
        low: MAX_COORDINATE,
        high: -MAX_COORDINATE,
    };
    for k in 0..outline.rings.len() {
        heights = widened(heights, outline.rings.get(k));
    }
    heights
}

/// The row whose four units hold the height.
fn row_at(y: i64) -> i32
    requires low { neg_ℤ (pos max_coordinate) ≤ℤ y }
    requires high { y ≤ℤ pos max_coordinate }
    ensures begins { (pos 4 *ℤ result) ≤ℤ y }
    ensures ends { y <ℤ (pos 4 *ℤ result +ℤ pos 4) }
{
    y.div_euclid(4) as i32
}

/// The height of the samples of row j.
fn height_of(j: i32) -> i64
    ensures { result ≡ place j }
{
    4 * i64::from(j) + 2
}

/// The rows that may hold samples inside points of these heights.
fn rows_within(heights: Heights) -> RowRange
    requires low { neg_ℤ (pos max_coordinate) ≤ℤ heights.low }
    requires high { heights.high ≤ℤ pos max_coordinate }
    requires ordered { heights.low ≤ℤ heights.high }
    ensures above { (j : ℤ) → j <ℤ result.first → place j <ℤ heights.low }
    ensures below { (j : ℤ) → result.end ≤ℤ j → heights.high ≤ℤ place j }
    ensures low { neg_ℤ (pos max_swept) ≤ℤ result.first }
    ensures high { result.end ≤ℤ pos max_swept }
    ensures ordered { result.first ≤ℤ result.end }
{
    RowRange {
        first: row_at(heights.low),
        end: row_at(heights.high) + 1,
    }
}

/// A region that grows while edges are swept.
#[derive(Drop)]
struct Scan {
    sweep: Sweep,
    walk: RowCrossings,
    growth: Growth,
}

impl Scan {
    ghost use Rattle.sample_region.specs.Scans.{HasCarried, HasReached, HasScanned, HasSteadyRows, HoldsRow};

    /// Sweeps row j, and finds its runs.
    fn sweep_row(&mut self, edges: &[SweepEdge], j: i32) -> Mem<()>
        requires edges { IsSweepable edges.now }
        requires low { neg_ℤ (pos max_swept) ≤ℤ j }
        requires high { j ≤ℤ pos max_swept }
        requires reached { HasReached edges.now j self.old }
        requires carried { HasCarried (j -ℤ pos 1) self.old }
        ensures reached { OnOk result (HasReached edges.now j self.new) }
        ensures carried { OnOk result (HasCarried j self.new) }
        ensures steady { OnOk result (HasSteadyRows edges.now j self.new) }
        ensures row { OnOk result (HoldsRow edges.now j self.new) }
        ensures growth { self.new.growth ≡ self.old.growth }
    {
        self.sweep.advance(edges, height_of(j))?;
        self.walk.walk(self.sweep.crossings.as_slice())?;
        Ok(())
    }

    /// Finds the runs of row j. Where they are known to be those of the row before, it isn't swept.
    fn find_row(&mut self, edges: &[SweepEdge], j: i32) -> Mem<()>
        requires edges { IsSweepable edges.now }
        requires low { neg_ℤ (pos max_swept) ≤ℤ j }
        requires high { j ≤ℤ pos max_swept }
        requires reached { HasReached edges.now j self.old }
        requires carried { HasCarried (j -ℤ pos 1) self.old }
        requires steady { HasSteadyRows edges.now j self.old }
        ensures reached { OnOk result (HasReached edges.now j self.new) }
        ensures carried { OnOk result (HasCarried j self.new) }
        ensures steady { OnOk result (HasSteadyRows edges.now j self.new) }
        ensures row { OnOk result (HoldsRow edges.now j self.new) }
        ensures growth { self.new.growth ≡ self.old.growth }
    {
        if self.sweep.is_steady(edges, height_of(j)) {
            return Ok(());
        }
        self.sweep_row(edges, j)
    }

    /// Adds row j, the next one.
    fn add_row(&mut self, edges: &[SweepEdge], j: i32) -> Mem<()>
        requires edges { IsSweepable edges.now }
        requires low { neg_ℤ (pos max_swept) ≤ℤ j }
        requires high { j ≤ℤ pos max_swept }
        requires rows { HasScanned edges.now j self.old }
        ensures { OnOk result (HasScanned edges.now (j +ℤ pos 1) self.new) }
    {
        self.find_row(edges, j)?;
        self.growth.add(self.walk.runs.as_slice())?;
        Ok(())
    }

    /// Adds rows from `first` up to `end`.
    fn add_rows(&mut self, edges: &[SweepEdge], first: i32, end: i32) -> Mem<()>
        requires edges { IsSweepable edges.now }
        requires low { neg_ℤ (pos max_swept) ≤ℤ first }
        requires ordered { first ≤ℤ end }
        requires high { end ≤ℤ pos max_swept }
        requires rows { HasScanned edges.now first self.old }
        ensures { OnOk result (HasScanned edges.now end self.new) }
    {
        for j in first..end {
            self.add_row(edges, j)?;
        }
        Ok(())
    }
}

/// The samples whose winding number isn't 0. The points of the outline lie within 262,144 of 0.
pub fn region_of(alloc: Global, outline: &Outline) -> Mem<Region>
    requires { IsOutline outline.now.rings }
    ensures samples { IfOk result (λ r. (i j : ℤ) → member r.top r.rows i j ≡ inside outline.now.rings i j) }
    ensures canonical { IfOk result (λ r. is_canonical r.top r.rows ≡ true) }
    ensures within { IfOk result (λ r. (limit : ℕ) → max_inside ≤ limit → IsRegionWithin limit r.top r.rows) }
{
    let heights = find_heights(outline);
    if heights.low > heights.high {
        return Ok(Region::empty(alloc));
    }
    let rows = rows_within(heights);
    let edges = ordered_edges(alloc, outline)?;
    let mut scan = Scan {
        sweep: Sweep::new(alloc),
        walk: RowCrossings::new(alloc),
        growth: Growth::new(alloc, rows.first),
    };
    scan.add_rows(edges.as_slice(), rows.first, rows.end)?;
    let Scan {
        sweep: _,
        walk: _,
        growth,
    } = scan;
    Ok(growth.finish())
}
