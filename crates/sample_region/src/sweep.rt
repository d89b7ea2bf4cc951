//! The sweep over the rows: which edges cross a row, and where.

ghost use Rattle.std.specs.Prelude.{◌≡◌, ℤ, ◌≤ℤ◌, ◌<ℤ◌, ◌≤◌, ◌++◌, ◌∷◌, [], All, List, map, take, drop, cond, filter, int_lt, length, pos, ◌+ℤ◌, ◌-ℤ◌, OnOk, IsPermutation};
ghost use Rattle.sample_region.specs.Carried.{AreCarriedTo, GoOnFrom, live_edges};
ghost use Rattle.std.specs.Bool.{IsTrue};
ghost use Rattle.sample_region.specs.Edges.{BeginBelow, IsEdge, IsSteady, IsSwept, IsSweptTo, IsUprightPast, unended};
ghost use Rattle.sample_region.specs.Crossings.{IsAscending, IsSweepable, crossing_at, row_crossings};

use crate::carried::{LiveEdge, begun_edge, next_row};
use crate::edges::SweepEdge;
use ass_num::Mem;
use std::alloc::Global;

/// The first sample of a row that an edge doesn't pass on its right, and whether the ring goes down along the edge.
#[derive(Clone, Copy)]
pub struct Crossing {
    pub at: i32,
    pub down: bool,
}

/// How far the sweep has come: how many edges have begun, those of them that may cross a later row, and the crossings of a row.
#[derive(Drop)]
pub struct Sweep {
    begun: usize,
    active: Vec<LiveEdge>,
    pub crossings: Vec<Crossing>,
}

impl Sweep {
    ghost use Rattle.sample_region.specs.declared.edges.SweepEdge.{SweepEdge};

    /// A sweep that hasn't begun.
    pub fn new(alloc: Global) -> Sweep
        ensures swept { (y : ℤ) → (edges : List SweepEdge) → IsSwept y edges result.begun (live_edges result.active.items) }
        ensures begun { result.begun ≡ 0 }
        ensures active { result.active.items ≡ [] }
    {
        Sweep {
            begun: 0,
            active: Vec::new(alloc),
            crossings: Vec::new(alloc),
        }
    }

    /// Takes an edge in, unless it ends above the row at `y`.
    fn take_in(&mut self, e: SweepEdge, y: i64) -> Mem<()>
        requires begun { e.upper.y ≤ℤ y }
        requires edge { IsEdge e }
        ensures active { OnOk result (live_edges self.new.active.items ≡ live_edges self.old.active.items ++ cond (int_lt y e.lower.y) (e ∷ []) []) }
        ensures carried { OnOk result (AreCarriedTo y self.old.active.items → AreCarriedTo y self.new.active.items) }
        ensures begun { self.new.begun ≡ self.old.begun }
    {
        if y < e.lower.y {
            self.active.push(begun_edge(e, y))?;
            return Ok(());
        }
        Ok(())
    }

    /// Takes in the edges that begin above the row at `y` or on it; those that end above it are dropped already.
    fn begin_edges(&mut self, edges: &[SweepEdge], y: i64) -> Mem<()>
        requires sweepable { IsSweepable edges.now }
        requires active { live_edges self.old.active.items ≡ unended y (take self.old.begun edges.now) }
        requires carried { AreCarriedTo y self.old.active.items }
        requires above { All (λ e. e.upper.y ≤ℤ y) (take self.old.begun edges.now) }
        requires within { self.old.begun ≤ length edges.now }
        ensures active { OnOk result (live_edges self.new.active.items ≡ unended y (take self.new.begun edges.now)) }
        ensures carried { OnOk result (AreCarriedTo y self.new.active.items) }
        ensures above { OnOk result (All (λ e. e.upper.y ≤ℤ y) (take self.new.begun edges.now)) }
        ensures below { OnOk result (All (λ e. y <ℤ e.upper.y) (drop self.new.begun edges.now)) }
        ensures within { OnOk result (self.new.begun ≤ length edges.now) }
    {
        for k in self.begun..edges.len() {
            let e = edges[k];
            if y < e.upper.y {
                return Ok(());
            }
            self.take_in(e, y)?;
            self.begun = k + 1;
        }
        Ok(())
    }

    /// Moves on to the row at `y`, and finds its crossings in ascending order.
    pub fn advance(&mut self, edges: &[SweepEdge], y: i64) -> Mem<()>
        requires sweepable { IsSweepable edges.now }
        requires swept { IsSwept y edges.now self.old.begun (live_edges self.old.active.items) }
        requires carried { AreCarriedTo (y -ℤ pos 4) self.old.active.items }
        ensures crossings { OnOk result (IsPermutation (row_crossings y edges.now) self.new.crossings.items) }
        ensures ascending { OnOk result (IsAscending self.new.crossings.items) }
        ensures swept { OnOk result ((z : ℤ) → y ≤ℤ z → IsSwept z edges.now self.new.begun (live_edges self.new.active.items)) }
        ensures carried { OnOk result (AreCarriedTo y self.new.active.items) }
        ensures swept_to { OnOk result (IsSweptTo y edges.now self.new.begun (live_edges self.new.active.items)) }
    {
        drop_ended(&mut self.active, y);
        carry(self.active.as_mut_slice());
        self.begin_edges(edges, y)?;
        cross(self.active.as_slice(), &mut self.crossings)?;
        sort(&mut self.crossings);
        Ok(())
    }

    /// Whether all edges that haven't begun yet begin below the row at `y`.
    fn begin_below(&self, edges: &[SweepEdge], y: i64) -> bool
        requires { IsSweepable edges.now }
        ensures { IsTrue result → BeginBelow y (drop self.now.begun edges.now) }
    {
        self.begun >= edges.len() || y < edges[self.begun].upper.y
    }

    /// Whether the row at `y` is known to have the same crossings as the last row.
    pub fn is_steady(&self, edges: &[SweepEdge], y: i64) -> bool
        requires { IsSweepable edges.now }
        ensures { IsTrue result → IsSteady y edges.now self.now.begun (live_edges self.now.active.items) }
    {
        self.begin_below(edges, y) && are_upright_past(self.active.as_slice(), y)
    }
}

/// Whether an edge stands upright and reaches below the row at `y`.
fn is_upright_past(e: SweepEdge, y: i64) -> bool
    ensures { IsTrue result → IsUprightPast y e }
{
    e.upper.x == e.lower.x && y < e.lower.y
}

/// Whether all edges do.
fn are_upright_past(active: &[LiveEdge], y: i64) -> bool
    ensures { IsTrue result → All (IsUprightPast y) (live_edges active.now) }
{
    for live in active {
        if !is_upright_past(live.edge, y) {
            return false;
        }
    }
    true
}

/// Drops the edges that end above the row at `y`.
fn drop_ended(active: &mut Vec<LiveEdge>, y: i64)
    ensures { active.new.items ≡ filter (λ live. int_lt y live.edge.lower.y) active.old.items }
{
    active.retain(
        |live| -> bool
            ensures { result ≡ int_lt y live.now.edge.lower.y }
        { y < live.edge.lower.y },
    );
}

/// Moves all edges on to the next row, which they cross.
fn carry(active: &mut [LiveEdge])
    requires { All (λ live. (y : ℤ) × GoOnFrom y live) active.old }
    ensures edges { live_edges active.new ≡ live_edges active.old }
    ensures carried { (y : ℤ) → All (GoOnFrom y) active.old → AreCarriedTo (y +ℤ pos 4) active.new }
{
    for live in active.iter_mut() {
        *live = next_row(*live);
    }
}

/// The crossings of edges with the row that they are carried to.
fn cross(active: &[LiveEdge], crossings: &mut Vec<Crossing>) -> Mem<()>
    ensures { OnOk result ((y : ℤ) → AreCarriedTo y active.now → crossings.new.items ≡ map (crossing_at y) (live_edges active.now)) }
{
    crossings.clear();
    for live in active {
        crossings.push(Crossing {
            at: live.at,
            down: live.edge.down,
        })?;
    }
    Ok(())
}

fn sort(crossings: &mut Vec<Crossing>)
    ensures permutation { IsPermutation crossings.old.items crossings.new.items }
    ensures ascending { IsAscending crossings.new.items }
{
    crossings.sort_unstable_by_key(|c| c.at);
}
