//! Edges that cross rows. Where an edge crosses is carried from row to row by sums; only its first row takes divisions.

ghost use Rattle.std.specs.Prelude.{◌≡◌, ℤ, pos, neg_ℤ, ◌+ℤ◌, ◌-ℤ◌, ◌*ℤ◌, ◌≤ℤ◌, ◌<ℤ◌};
ghost use Rattle.std.specs.Int.{int_div_euclid};
ghost use Rattle.ass_num.specs.Limits.{max_coordinate};
ghost use Rattle.sample_region.specs.Carried.{GoOnFrom, IsCarriedTo, IsDivision};
ghost use Rattle.sample_region.specs.Edges.{IsCrossed};
ghost use Rattle.sample_region.specs.Limits.{max_divided, max_fourfold};

use crate::cut::number_of;
use crate::edges::SweepEdge;

/// An edge that has begun, where it crosses a row, and by how much that grows a row: quotients by four times its height, and what is over.
#[derive(Clone, Copy)]
pub struct LiveEdge {
    pub edge: SweepEdge,
    pub at: i32,
    pub over: i64,
    pub step: i32,
    pub step_over: i64,
    pub divisor: i64,
}

/// A quotient rounded down, and what is over.
#[derive(Clone, Copy)]
struct Division {
    whole: i64,
    over: i64,
}

/// A quotient rounded down.
fn quotient(number: i64, divisor: i64) -> i64
    requires low { neg_ℤ (pos max_divided) ≤ℤ number }
    requires high { number ≤ℤ pos max_divided }
    requires positive { pos 0 <ℤ divisor }
    requires small { divisor ≤ℤ pos max_fourfold }
    ensures value { result ≡ int_div_euclid number divisor }
    ensures least { (result *ℤ divisor) ≤ℤ number }
    ensures most { number <ℤ (result *ℤ divisor +ℤ divisor) }
{
    number.div_euclid(divisor)
}

/// What is over where a number is divided.
fn rest(number: i64, divisor: i64, whole: i64) -> i64
    requires low { neg_ℤ (pos max_divided) ≤ℤ number }
    requires high { number ≤ℤ pos max_divided }
    requires positive { pos 0 <ℤ divisor }
    requires small { divisor ≤ℤ pos max_fourfold }
    requires least { (whole *ℤ divisor) ≤ℤ number }
    requires most { number <ℤ (whole *ℤ divisor +ℤ divisor) }
    ensures { result ≡ number -ℤ whole *ℤ divisor }
{
    number - whole * divisor
}

/// A division rounded down.
fn divided(number: i64, divisor: i64) -> Division
    requires low { neg_ℤ (pos max_divided) ≤ℤ number }
    requires high { number ≤ℤ pos max_divided }
    requires positive { pos 0 <ℤ divisor }
    requires small { divisor ≤ℤ pos max_fourfold }
    ensures { IsDivision number divisor result }
{
    let whole = quotient(number, divisor);
    Division {
        whole,
        over: rest(number, divisor, whole),
    }
}

/// Four times the way from one coordinate to another.
fn fourfold(from: i64, to: i64) -> i64
    requires low_from { neg_ℤ (pos max_coordinate) ≤ℤ from }
    requires high_from { from ≤ℤ pos max_coordinate }
    requires low_to { neg_ℤ (pos max_coordinate) ≤ℤ to }
    requires high_to { to ≤ℤ pos max_coordinate }
    ensures value { result ≡ pos 4 *ℤ (to -ℤ from) }
    ensures low { neg_ℤ (pos max_fourfold) ≤ℤ result }
    ensures high { result ≤ℤ pos max_fourfold }
{
    let way = to - from;
    4 * way
}

/// An edge that crosses the row at `y`.
pub fn begun_edge(e: SweepEdge, y: i64) -> LiveEdge
    requires { IsCrossed y e }
    ensures carried { IsCarriedTo y result }
    ensures edge { result.edge ≡ e }
{
    let divisor = fourfold(e.upper.y, e.lower.y);
    let number = number_of(e.upper, e.lower, y);
    let at = divided(number, divisor);
    let growth = fourfold(e.upper.x, e.lower.x);
    let step = divided(growth, divisor);
    LiveEdge {
        edge: e,
        at: at.whole as i32,
        over: at.over,
        step: step.whole as i32,
        step_over: step.over,
        divisor,
    }
}

/// The edge in the next row, which it crosses too.
pub fn next_row(live: LiveEdge) -> LiveEdge
    requires { (y : ℤ) × GoOnFrom y live }
    ensures carried { (y : ℤ) → GoOnFrom y live → IsCarriedTo (y +ℤ pos 4) result }
    ensures edge { result.edge ≡ live.edge }
{
    let over = live.over + live.step_over;
    if over < live.divisor {
        return LiveEdge {
            at: live.at + live.step,
            over,
            ..live
        };
    }
    LiveEdge {
        at: live.at + live.step + 1,
        over: over - live.divisor,
        ..live
    }
}
