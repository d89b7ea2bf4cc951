//! The strips of a region, widened: a run a row.

ghost use Rattle.std.specs.Prelude.{◌≡◌, ℕ, pos, neg_ℤ, ◌+ℤ◌, ◌-ℤ◌, ◌≤ℤ◌, ◌+◌, ◌-◌, ◌^◌, ◌<◌, ◌≤◌, [], length, IfOk, OnOk};
ghost use Rattle.ass_num.specs.Limits.{IsRegionWithin, max_sample};
ghost use Rattle.border_region.specs.Limits.{max_key, max_radius};
ghost use Rattle.border_region.specs.Finders.{AreBetween};
ghost use Rattle.border_region.specs.Held.{HoldWidened};
ghost use Rattle.border_region.specs.Keys.{key_at};
ghost use Rattle.border_region.specs.Strips.{runs_of_row};

use crate::ellipse::{Ellipse, ellipse_of};
use crate::profile::profile_of;
use crate::strips::{Strip, strip_begins};
use crate::wide_sides::widen_side;
use ass_num::{FlatLists, Mem, Region, Run};
use std::alloc::Global;

/// The rows of a widened strip, from `first` up to but not with `end`, and its place among the strips.
#[derive(Clone, Copy)]
pub struct Span {
    pub first: i32,
    pub end: i32,
    pub place: usize,
}

/// Widened strips in the order of their first rows, and the runs of each, one a row.
#[derive(Drop)]
pub struct WideStrips {
    pub spans: Vec<Span>,
    pub runs: FlatLists<Run>,
}

impl WideStrips {
    ghost use Rattle.border_region.specs.Finders.{AddsStrip};

    /// Adds a strip by its first row and its runs.
    fn add(&mut self, first: i32, runs: &[Run]) -> Mem<()>
        requires low { neg_ℤ (pos max_key) ≤ℤ first }
        requires high { (first +ℤ pos (length runs.now)) ≤ℤ pos max_key }
        ensures { OnOk result (AddsStrip first runs.now self.old self.new) }
    {
        self.spans.push(Span {
            first,
            end: first + runs.len() as i32,
            place: self.runs.len(),
        })?;
        self.runs.push(runs)
    }
}

/// The first row that row k of a region reaches, from so many rows below it.
fn first_reached(top: i32, k: usize, ry: u32) -> i32
    requires low { neg_ℤ (pos max_sample) ≤ℤ top }
    requires high { (top +ℤ pos k) ≤ℤ pos (max_sample + 1) }
    requires down { ry ≤ max_radius }
    ensures { result ≡ (top +ℤ pos k) -ℤ pos ry }
{
    top + k as i32 - ry as i32
}

/// Makes the runs between a widened strip's sides.
fn pair_sides(lefts: &[i32], rights: &[i32], runs: &mut Vec<Run>) -> Mem<()>
    requires count { length rights.now ≡ length lefts.now }
    requires fits { (m : ℕ) → m < length rights.now → neg_ℤ (pos (2 ^ 31 - 1)) ≤ℤ key_at rights.now m }
    ensures { OnOk result (AreBetween lefts.now rights.now runs.new.items) }
{
    runs.clear();
    for m in 0..lefts.len() {
        runs.push(Run {
            from: lefts[m],
            to: -rights[m],
        })?;
    }
    Ok(())
}

/// Strips that are found and widened, and room for the next one.
#[derive(Drop)]
pub struct StripFinder {
    ellipse: Ellipse,
    profile: Vec<i32>,
    strip: Strip,
    lefts: Vec<i32>,
    rights: Vec<i32>,
    runs: Vec<Run>,
    wide: WideStrips,
}

impl StripFinder {
    ghost use Rattle.border_region.specs.Finders.{HasFound, IsReady, IsWideStrip};
    ghost use Rattle.border_region.specs.Reach.{IsSide};
    ghost use Rattle.border_region.specs.Strips.{IsStrip};

    /// No strips yet, to be widened by this ellipse.
    fn new(alloc: Global, rx: u32, ry: u32) -> Mem<StripFinder>
        requires across { rx ≤ max_radius }
        requires down { ry ≤ max_radius }
        ensures ready { IfOk result (λ finder. IsReady rx ry finder) }
        ensures spans { IfOk result (λ finder. finder.wide.spans.items ≡ []) }
        ensures runs { IfOk result (λ finder. finder.wide.runs ≡ []) }
    {
        let ellipse = ellipse_of(alloc, rx, ry)?;
        let profile = profile_of(alloc, ellipse.half_widths.as_slice())?;
        Ok(StripFinder {
            ellipse,
            profile,
            strip: Strip::new(alloc),
            lefts: Vec::new(alloc),
            rights: Vec::new(alloc),
            runs: Vec::new(alloc),
            wide: WideStrips {
                spans: Vec::new(alloc),
                runs: FlatLists::new(alloc),
            },
        })
    }

    /// Widens the strip that was found.
    fn widen(&mut self) -> Mem<()>
        requires ready { IsReady self.old.ellipse.rx self.old.ellipse.ry self.old }
        requires strip { IsStrip self.old.strip.lefts.items self.old.strip.rights.items }
        requires lefts { IsSide self.old.strip.lefts.items }
        requires rights { IsSide self.old.strip.rights.items }
        ensures ellipse { self.new.ellipse ≡ self.old.ellipse }
        ensures profile { self.new.profile ≡ self.old.profile }
        ensures strip { self.new.strip ≡ self.old.strip }
        ensures wide { self.new.wide ≡ self.old.wide }
        ensures runs { OnOk result (IsWideStrip self.old.profile.items self.old.strip.lefts.items self.old.strip.rights.items self.new.runs.items) }
    {
        let (profile, middle) = (self.profile.as_slice(), self.ellipse.ry as usize);
        widen_side(
            self.strip.lefts.as_slice(),
            profile,
            middle,
            &mut self.lefts,
        )?;
        widen_side(
            self.strip.rights.as_slice(),
            profile,
            middle,
            &mut self.rights,
        )?;
        pair_sides(
            self.lefts.as_slice(),
            self.rights.as_slice(),
            &mut self.runs,
        )
    }

    /// Finds the strip that begins with run n of row k, and adds it widened.
    fn add_strip(&mut self, region: &Region, k: usize, n: usize) -> Mem<()>
        requires within { IsRegionWithin max_sample region.now.top region.now.rows }
        requires row { k < length region.now.rows }
        requires run { n < length (runs_of_row region.now.rows k) }
        requires found { HasFound region.now self.old.ellipse.rx self.old.ellipse.ry k n self.old }
        ensures { OnOk result (HasFound region.now self.old.ellipse.rx self.old.ellipse.ry k (n + 1) self.new) }
    {
        self.strip.find(region, k, n)?;
        self.widen()?;
        let first = first_reached(region.top(), k, self.ellipse.ry);
        self.wide.add(first, self.runs.as_slice())
    }

    /// Adds the strip that begins with run n of row k, if one does.
    fn take_run(&mut self, region: &Region, k: usize, n: usize) -> Mem<()>
        requires within { IsRegionWithin max_sample region.now.top region.now.rows }
        requires row { k < length region.now.rows }
        requires run { n < length (runs_of_row region.now.rows k) }
        requires found { HasFound region.now self.old.ellipse.rx self.old.ellipse.ry k n self.old }
        ensures { OnOk result (HasFound region.now self.old.ellipse.rx self.old.ellipse.ry k (n + 1) self.new) }
    {
        if strip_begins(region.rows(), k, n) {
            return self.add_strip(region, k, n);
        }
        Ok(())
    }

    /// Adds the strips that begin in row k.
    fn take_row(&mut self, region: &Region, k: usize) -> Mem<()>
        requires within { IsRegionWithin max_sample region.now.top region.now.rows }
        requires row { k < length region.now.rows }
        requires found { HasFound region.now self.old.ellipse.rx self.old.ellipse.ry k 0 self.old }
        ensures { OnOk result (HasFound region.now self.old.ellipse.rx self.old.ellipse.ry (k + 1) 0 self.new) }
    {
        for n in 0..region.rows().get(k).len() {
            self.take_run(region, k, n)?;
        }
        Ok(())
    }

    /// Adds the strips of all rows.
    fn take_rows(&mut self, region: &Region) -> Mem<()>
        requires within { IsRegionWithin max_sample region.now.top region.now.rows }
        requires found { HasFound region.now self.old.ellipse.rx self.old.ellipse.ry 0 0 self.old }
        ensures { OnOk result (HasFound region.now self.old.ellipse.rx self.old.ellipse.ry (length region.now.rows) 0 self.new) }
    {
        for k in 0..region.rows().len() {
            self.take_row(region, k)?;
        }
        Ok(())
    }
}

/// The strips of a region, widened by an ellipse.
pub fn wide_strips(alloc: Global, region: &Region, rx: u32, ry: u32) -> Mem<WideStrips>
    requires within { IsRegionWithin max_sample region.now.top region.now.rows }
    requires across { rx ≤ max_radius }
    requires down { ry ≤ max_radius }
    ensures { IfOk result (λ wide. HoldWidened region.now rx ry wide.spans.items wide.runs) }
{
    let mut finder = StripFinder::new(alloc, rx, ry)?;
    finder.take_rows(region)?;
    let StripFinder {
        ellipse: _,
        profile: _,
        strip: _,
        lefts: _,
        rights: _,
        runs: _,
        wide,
    } = finder;
    Ok(wide)
}
