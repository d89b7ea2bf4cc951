//! Counts of the samples in the pixels of a row, kept by their steps: the count of a pixel is the sum of the steps up to it.

ghost use Rattle.std.specs.Prelude.{◌≡◌, ℕ, pos, neg_ℤ, true, length, []};
ghost use Rattle.std.specs.Prelude.{◌<◌, ◌≤◌, ◌+◌, ◌-◌, ◌*◌, ◌^◌, ◌+ℤ◌, ◌-ℤ◌, ◌<ℤ◌, ◌≤ℤ◌, All, IfOk, slice_index, slice_index_or};
ghost use Rattle.std.specs.Prelude.{unsigned_abs};
ghost use Rattle.ass_num.specs.Regions.{ascend, all_ascend};
ghost use Rattle.ass_num.specs.Coverage.{coverage_byte};
ghost use Rattle.mask_cover.specs.Steps.{sum_first, samples_after, AreStepsWithin, CountsWithin, row_count, cell_count, IsInside, IsRowPushed};

use crate::axis::place_of;
use ass_num::{FlatLists, Mem, Run};

/// Makes all steps 0.
pub fn clear(steps: &mut [i16])
    ensures { (n : ℕ) → sum_first steps.new n ≡ pos 0 }
{
    steps.fill(0);
}

/// Adds `by` to the step at `k`.
fn add_step(steps: &mut [i16], k: usize, by: i16)
    requires place { k < length steps.old }
    requires small { AreStepsWithin 2000 steps.old }
    requires low { neg_ℤ (pos 256) ≤ℤ by }
    requires high { by ≤ℤ pos 256 }
    ensures before { (n : ℕ) → n ≤ k → sum_first steps.new n ≡ sum_first steps.old n }
    ensures behind { (n : ℕ) → k < n → sum_first steps.new n ≡ sum_first steps.old n +ℤ by }
    ensures small { (limit : ℕ) → AreStepsWithin limit steps.old → AreStepsWithin (limit + 256) steps.new }
{
    steps[k] += by;
}

/// So many samples, so many times.
fn counted(times: u8, samples: usize) -> i16
    requires times { times ≤ 16 }
    requires samples { samples ≤ 16 }
    ensures value { result ≡ pos (times * samples) }
    ensures most { result ≤ℤ pos 256 }
{
    (usize::from(times) * samples) as i16
}

/// Counts the samples from `from` up to but not with `to`, both counted from the first sample of the first pixel, so many times.
fn add_run(steps: &mut [i16], from: usize, to: usize, times: u8)
    requires ascends { from ≤ to }
    requires inside { to + 16 < 16 * length steps.old }
    requires small { AreStepsWithin 300 steps.old }
    requires times { times ≤ 16 }
    ensures counts { (c : ℕ) → sum_first steps.new (c + 1) +ℤ pos (times * samples_after to c)
        ≡ sum_first steps.old (c + 1) +ℤ pos (times * samples_after from c) }
{
    add_step(steps, from / 16, counted(times, 16 - from % 16));
    add_step(steps, from / 16 + 1, counted(times, from % 16));
    add_step(steps, to / 16, -counted(times, 16 - to % 16));
    add_step(steps, to / 16 + 1, -counted(times, to % 16));
}

/// Counts the samples of a row, where the first pixel's first sample is `left`, so many times.
fn add_row(steps: &mut [i16], runs: &[Run], left: i64, times: u8)
    requires ascends { ascend runs.now ≡ true }
    requires inside { IsInside left (length steps.old) runs.now }
    requires low { neg_ℤ (pos (2 ^ 32)) ≤ℤ left }
    requires times { times ≤ 16 }
    requires counts { CountsWithin (256 - 16 * times) steps.old }
    ensures { (c : ℕ) → sum_first steps.new (c + 1) ≡ sum_first steps.old (c + 1) +ℤ pos (times * row_count runs.now left c) }
{
    for run in runs {
        add_run(
            steps,
            place_of(run.from, left),
            place_of(run.to, left),
            times,
        );
    }
}

/// How many rows from row k on, at most so many, have the runs of row k.
fn count_alike(rows: &FlatLists<Run>, k: usize, most: usize) -> usize
    requires within { k < length rows.now }
    requires some { 0 < most }
    requires few { most ≤ 16 }
    ensures some { 0 < result }
    ensures most { result ≤ most }
    ensures alike { (n : ℕ) → n < result → slice_index_or rows.now (k + n) [] ≡ slice_index_or rows.now k [] }
{
    let end = most.min(rows.len() - k);
    for n in 1..end {
        if rows.get(k + n) != rows.get(k) {
            return n;
        }
    }
    end
}

/// Counts the samples of row b of the pixel row `row`, and of those below it that are like it. Says how many rows they are.
fn add_alike(
    steps: &mut [i16],
    rows: &FlatLists<Run>,
    left: i64,
    above: usize,
    row: usize,
    b: usize,
) -> usize
    requires ascends { all_ascend rows.now ≡ true }
    requires inside { All (IsInside left (length steps.old)) rows.now }
    requires low { neg_ℤ (pos (2 ^ 32)) ≤ℤ left }
    requires small { row < 2 ^ 58 }
    requires within { b < 16 }
    requires counts { (c : ℕ) → sum_first steps.old (c + 1) ≡ pos (cell_count rows.now left above row c b) }
    ensures some { 0 < result }
    ensures most { b + result ≤ 16 }
    ensures counts { (c : ℕ) → sum_first steps.new (c + 1) ≡ pos (cell_count rows.now left above row c (b + result)) }
{
    let k = 16 * row + b;
    if k < above {
        return 1;
    }
    if rows.len() <= k - above {
        return 1;
    }
    let times = count_alike(rows, k - above, 16 - b);
    add_row(steps, rows.get(k - above), left, times as u8);
    times
}

/// Counts the samples of the 16 rows of the pixel row `row`, where `above` rows of samples stand above the first row of the region.
pub fn add_rows(steps: &mut [i16], rows: &FlatLists<Run>, left: i64, above: usize, row: usize)
    requires ascends { all_ascend rows.now ≡ true }
    requires inside { All (IsInside left (length steps.old)) rows.now }
    requires low { neg_ℤ (pos (2 ^ 32)) ≤ℤ left }
    requires zero { (n : ℕ) → sum_first steps.old n ≡ pos 0 }
    requires small { row < 2 ^ 58 }
    ensures { (c : ℕ) → sum_first steps.new (c + 1) ≡ pos (cell_count rows.now left above row c 16) }
{
    let mut b = 0;
    while b < 16 {
        b += add_alike(steps, rows, left, above, row, b);
    }
}

/// Puts the bytes of the counts of the first `w` pixels at the end, and clears the steps.
pub fn push_row(bytes: &mut Vec<u8>, steps: &[i16], w: usize) -> Mem<()>
    requires width { w ≤ length steps.now }
    requires counts { CountsWithin 256 steps.now }
    ensures { IfOk result (λ _. IsRowPushed steps.now w bytes.old.items bytes.new.items) }
{
    let mut count: i16 = 0;
    let mut byte = 0;
    for c in 0..w {
        count += steps[c];
        byte = next_byte(byte, count, steps[c]);
        bytes.push(byte)?;
    }
    Ok(())
}

/// The byte of so many of 256 samples, where the byte before is that of as many less the step.
fn next_byte(before: u8, count: i16, step: i16) -> u8
    requires low { pos 0 ≤ℤ count }
    requires high { count ≤ℤ pos 256 }
    requires same { step ≡ pos 0 → before ≡ coverage_byte (unsigned_abs count) }
    ensures { result ≡ coverage_byte (unsigned_abs count) }
{
    if step == 0 {
        return before;
    }
    coverage_byte(count)
}

/// The byte of so many of 256 samples.
fn coverage_byte(count: i16) -> u8
    requires low { pos 0 ≤ℤ count }
    requires high { count ≤ℤ pos 256 }
    ensures { result ≡ coverage_byte (unsigned_abs count) }
{
    ((count as u32 * 255 + 128) / 256) as u8
}
