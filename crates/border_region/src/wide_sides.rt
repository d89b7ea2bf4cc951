//! How far a side of a strip reaches in each row once the strip is widened. Numbers that are less reach further.

ghost use Rattle.std.specs.Prelude.{◌≡◌, ℕ, ℤ, pos, ◌-ℤ◌, ◌≤ℤ◌, ◌+◌, ◌*◌, ◌<◌, ◌≤◌, ◌++◌, map, length, OnOk};
ghost use Rattle.std.specs.Int.{int_min};
ghost use Rattle.ass_num.specs.Limits.{IsWithin, max_sample};
ghost use Rattle.border_region.specs.Limits.{max_radius};
ghost use Rattle.border_region.specs.Keys.{key_at};
ghost use Rattle.border_region.specs.Reach.{AreLowered, IsDoneAbove, IsDoneBelow, IsProfile, IsSide, IsWideSide, IsWidenedSide};

use ass_num::Mem;

/// Lowers each number to the side less the width at its place, where it is greater.
fn lower(numbers: &mut [i32], side: i32, widths: &[i32])
    requires count { length widths.now ≡ length numbers.old }
    requires side { IsWithin (max_sample + 1) side }
    requires least { (q : ℕ) → q < length widths.now → pos 0 ≤ℤ key_at widths.now q }
    requires most { (q : ℕ) → q < length widths.now → key_at widths.now q ≤ℤ pos max_radius }
    ensures { (q : ℕ) → q < length numbers.old → key_at numbers.new q ≡ int_min (key_at numbers.old q) (side -ℤ key_at widths.now q) }
{
    for q in 0..numbers.len() {
        numbers[q] = numbers[q].min(side - widths[q]);
    }
}

/// Lowers the numbers of the rows that row k of a side reaches by the rows of the profile from `first` up to `end`.
fn lower_rows(wide: &mut [i32], k: usize, side: i32, profile: &[i32], first: usize, end: usize)
    requires ascends { first ≤ end }
    requires within { end ≤ length profile.now }
    requires room { k + end ≤ length wide.old }
    requires side { IsWithin (max_sample + 1) side }
    requires least { (p : ℕ) → p < length profile.now → pos 0 ≤ℤ key_at profile.now p }
    requires most { (p : ℕ) → p < length profile.now → key_at profile.now p ≤ℤ pos max_radius }
    ensures { AreLowered profile.now side k first end wide.old wide.new }
{
    lower(&mut wide[k + first..k + end], side, &profile[first..end]);
}

/// Puts at the end how far a side reaches by each of the widths.
fn push_reach(side: i32, widths: &[i32], wide: &mut Vec<i32>) -> Mem<()>
    requires side { IsWithin (max_sample + 1) side }
    requires least { (q : ℕ) → q < length widths.now → pos 0 ≤ℤ key_at widths.now q }
    requires most { (q : ℕ) → q < length widths.now → key_at widths.now q ≤ℤ pos max_radius }
    ensures { OnOk result (wide.new.items ≡ wide.old.items ++ map (λ w. side -ℤ w) widths.now) }
{
    for width in widths {
        wide.push(side - *width)?;
    }
    Ok(())
}

/// Puts at the end how far each row of a side reaches by a width.
fn push_rows(side: &[i32], width: i32, wide: &mut Vec<i32>) -> Mem<()>
    requires side { IsSide side.now }
    requires least { pos 0 ≤ℤ width }
    requires most { width ≤ℤ pos max_radius }
    ensures { OnOk result (wide.new.items ≡ wide.old.items ++ map (λ s. s -ℤ width) side.now) }
{
    for place in side {
        wide.push(*place - width)?;
    }
    Ok(())
}

/// Begins with what each row reaches in itself, the first one above, and the last one below.
fn start(side: &[i32], profile: &[i32], middle: usize, wide: &mut Vec<i32>) -> Mem<()>
    requires some { 0 < length side.now }
    requires side { IsSide side.now }
    requires profile { IsProfile middle profile.now }
    ensures { OnOk result (IsWideSide (IsDoneAbove middle side.now 1) profile.now side.now wide.new.items) }
{
    wide.clear();
    push_reach(side[0], &profile[..middle], wide)?;
    push_rows(side, profile[middle], wide)?;
    push_reach(side[side.len() - 1], &profile[middle + 1..], wide)
}

/// Lowers the rows above row k to what it reaches in them. Where the row before reaches no less, they are low already.
fn reach_above(wide: &mut [i32], side: &[i32], profile: &[i32], middle: usize, k: usize)
    requires row { 0 < k }
    requires within { k < length side.now }
    requires side { IsSide side.now }
    requires profile { IsProfile middle profile.now }
    requires wide { IsWideSide (IsDoneAbove middle side.now k) profile.now side.now wide.old }
    ensures { IsWideSide (IsDoneAbove middle side.now (k + 1)) profile.now side.now wide.new }
{
    if side[k - 1] <= side[k] {
        return;
    }
    lower_rows(wide, k, side[k], profile, 0, middle);
}

/// Lowers the rows below row k to what it reaches in them. Where the row after reaches no less, they are low already.
fn reach_below(
    wide: &mut [i32],
    side: &[i32],
    profile: &[i32],
    middle: usize,
    k: usize,
    done: usize,
)
    requires within { k + 1 < length side.now }
    requires done { k + 1 + done ≡ length side.now }
    requires side { IsSide side.now }
    requires profile { IsProfile middle profile.now }
    requires wide { IsWideSide (IsDoneBelow middle side.now done) profile.now side.now wide.old }
    ensures { IsWideSide (IsDoneBelow middle side.now (done + 1)) profile.now side.now wide.new }
{
    if side[k + 1] <= side[k] {
        return;
    }
    lower_rows(wide, k, side[k], profile, middle + 1, profile.len());
}

/// Lowers what lies above the rows of a side, from its first row down.
fn reach_up(wide: &mut [i32], side: &[i32], profile: &[i32], middle: usize)
    requires some { 0 < length side.now }
    requires side { IsSide side.now }
    requires profile { IsProfile middle profile.now }
    requires wide { IsWideSide (IsDoneAbove middle side.now 1) profile.now side.now wide.old }
    ensures { IsWideSide (IsDoneBelow middle side.now 1) profile.now side.now wide.new }
{
    for k in 1..side.len() {
        reach_above(wide, side, profile, middle, k);
    }
}

/// Lowers what lies below the rows of a side, from its last row up.
fn reach_down(wide: &mut [i32], side: &[i32], profile: &[i32], middle: usize)
    requires some { 0 < length side.now }
    requires side { IsSide side.now }
    requires profile { IsProfile middle profile.now }
    requires wide { IsWideSide (IsDoneBelow middle side.now 1) profile.now side.now wide.old }
    ensures { IsWidenedSide profile.now side.now wide.new }
{
    for done in 1..side.len() {
        reach_below(wide, side, profile, middle, side.len() - 1 - done, done);
    }
}

/// Finds how far a side reaches in each row, from as many rows above it as the profile has above its middle.
pub fn widen_side(side: &[i32], profile: &[i32], middle: usize, wide: &mut Vec<i32>) -> Mem<()>
    requires some { 0 < length side.now }
    requires side { IsSide side.now }
    requires profile { IsProfile middle profile.now }
    ensures { OnOk result (IsWidenedSide profile.now side.now wide.new.items) }
{
    start(side, profile, middle, wide)?;
    reach_up(wide.as_mut_slice(), side, profile, middle);
    reach_down(wide.as_mut_slice(), side, profile, middle);
    Ok(())
}
