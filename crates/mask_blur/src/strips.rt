//! Softening along strips of 16 columns.

ghost use Rattle.std.specs.Prelude.{◌≡◌, ℕ, ℤ, pos, ◌≤◌, ◌<◌, ◌+◌, ◌*◌, ◌/◌, ◌^◌, ◌-ℤ◌, ◌⊎◌, List, length, slice_index, IfOk};
ghost use Rattle.mask_blur.specs.Frames.{IsFramed, IsSoftenedTo};
ghost use Rattle.mask_blur.specs.Shown.{Shows, IsCellAt};
ghost use Rattle.mask_blur.specs.Softening.{softer, softened};

use crate::rows::part_at;
use ass_num::Mem;
use std::alloc::Global;
use std::mem::swap;

/// A part of a row, by the sums 1 2 1 of the row above and, with 8 in them, those of the row above that one and of this one. The sums move down by a row;
/// those that enter are of three parts of the row below, beside one another.
fn soften_part(
    to: &mut [u8],
    last: &mut [u16],
    both: &mut [u16],
    left: &[u8],
    middle: &[u8],
    right: &[u8],
)
    requires last { length last.old ≡ length to.old }
    requires both { length both.old ≡ length to.old }
    requires left { length left.now ≡ length to.old }
    requires middle { length middle.now ≡ length to.old }
    requires right { length right.now ≡ length to.old }
    requires last_small { (k : ℕ) → k < length to.old → slice_index last.old k ≤ 1020 }
    requires both_small { (k : ℕ) → k < length to.old → slice_index both.old k ≤ 2048 }
    ensures last { (k : ℕ) → k < length to.old → slice_index last.new k ≡ slice_index left.now k + 2 * slice_index middle.now k + slice_index right.now k }
    ensures both { (k : ℕ) → k < length to.old → slice_index both.new k ≡ slice_index last.old k + slice_index last.new k + 8 }
    ensures softened { (k : ℕ) → k < length to.old
        → slice_index to.new k ≡ (slice_index both.old k + (slice_index last.old k + slice_index last.new k)) / 16 }
{
    for k in 0..to.len() {
        let sum = u16::from(left[k]) + 2 * u16::from(middle[k]) + u16::from(right[k]);
        let pair = last[k] + sum;
        to[k] = ((both[k] + pair) / 16) as u8;
        last[k] = sum;
        both[k] = pair + 8;
    }
}

/// Row `k` of a pass over 16 columns from column `at` on.
fn soften_step(
    to: &mut [u8],
    from: &[u8],
    last: &mut [u16],
    both: &mut [u16],
    w: usize,
    k: usize,
    at: usize,
)
    requires columns { at + 16 ≤ w }
    requires from { (k + 3) * w ≤ length from.now }
    requires to { (k + 1) * w ≤ length to.old }
    requires last { length last.old ≡ 16 }
    requires both { length both.old ≡ 16 }
    requires last_small { (b : ℕ) → b < 16 → slice_index last.old b ≤ 1020 }
    requires both_small { (b : ℕ) → b < 16 → slice_index both.old b ≤ 2048 }
    ensures last_small { (b : ℕ) → b < 16 → slice_index last.new b ≤ 1020 }
    ensures both_small { (b : ℕ) → b < 16 → slice_index both.new b ≤ 2048 }
    ensures softened { (h m : ℕ) (before : List ℕ) → IsFramed w h (m + 1) from.now → m ≤ k → k + 2 < h
        → IsSoftenedTo w h m at k from.now before to.old last.old both.old → IsSoftenedTo w h m at (k + 1) from.now before to.new last.new both.new }
{
    let start = k * w + at;
    let left = part_at(from, start + w - 1);
    let middle = part_at(from, start + w);
    let right = part_at(from, start + w + 1);
    soften_part(
        &mut to[start..start + 16],
        last,
        both,
        &left,
        &middle,
        &right,
    );
}

/// One pass over 16 columns from column `at` on of `h` rows of `w` bytes, but for the frame of `m`. Two rows a turn spare copies of the sums.
/// inlined, LLVM takes what is written to for a part of the sums, which then go through memory
#[inline(never)]
fn soften_strip(to: &mut [u8], from: &[u8], w: usize, h: usize, m: usize, at: usize)
    requires height { 2 * m + 4 ≤ h }
    requires columns { at + 16 ≤ w }
    requires from { h * w ≤ length from.now }
    requires to { h * w ≤ length to.old }
    requires framed { IsFramed w h (m + 1) from.now }
    ensures { (f : ℤ → ℤ → ℕ) (x y : ℤ) → Shows f x y w h from.now → (j i : ℕ) → i < w
        → ((m ≤ j) × (j + m + 2 < h) × (at ≤ i) × (i < at + 16)) ⊎ IsCellAt (softer f) x y w to.old i j → IsCellAt (softer f) x y w to.new i j }
{
    let mut last = [0u16; 16];
    let mut both = [8u16; 16];
    let rows = h - 2 * m - 2;
    for q in 0..rows / 2 {
        let k = m + 2 * q;
        soften_step(to, from, &mut last, &mut both, w, k, at);
        soften_step(to, from, &mut last, &mut both, w, k + 1, at);
    }
    if rows % 2 == 1 {
        soften_step(to, from, &mut last, &mut both, w, m + rows - 1, at);
    }
}

/// One pass over `h` rows of `w` bytes, whose frame becomes narrower by one.
fn soften_strips(to: &mut [u8], from: &[u8], w: usize, h: usize, m: usize)
    requires height { 2 * m + 4 ≤ h }
    requires columns { 2 * m + 16 ≤ w }
    requires from { h * w ≤ length from.now }
    requires to { h * w ≤ length to.old }
    requires framed { IsFramed w h (m + 1) from.now }
    requires clear { IsFramed w h m to.old }
    ensures framed { IsFramed w h m to.new }
    ensures softer { (f : ℤ → ℤ → ℕ) (x y : ℤ) → Shows f x y w h from.now → Shows (softer f) x y w h to.new }
{
    for q in 0..(w - 2 * m - 1) / 16 {
        soften_strip(to, from, w, h, m, m + 16 * q);
    }
    soften_strip(to, from, w, h, m, w - m - 16);
}

/// So many passes between two buffers of `h` rows of `w` bytes.
fn soften_framed(now: &mut Vec<u8>, next: &mut Vec<u8>, w: usize, h: usize, n: usize)
    requires height { 2 * n + 2 ≤ h }
    requires columns { 2 * n + 14 ≤ w }
    requires now { length now.old.items ≡ h * w }
    requires next { length next.old.items ≡ h * w }
    requires framed { IsFramed w h n now.old.items }
    requires zeros { (k : ℕ) → slice_index next.old.items k ≡ 0 }
    ensures count { length now.new.items ≡ h * w }
    ensures framed { IsFramed w h 0 now.new.items }
    ensures softened { (f : ℤ → ℤ → ℕ) (x y : ℤ) → Shows f x y w h now.old.items → Shows (softened n f) x y w h now.new.items }
{
    for k in 0..n {
        soften_strips(next.as_mut_slice(), now.as_slice(), w, h, n - k - 1);
        swap(now, next);
    }
}

/// Writes `h` rows of `w` bytes into zeros, with a frame of `n`.
fn frame(to: &mut [u8], bytes: &[u8], w: usize, h: usize, n: usize)
    requires count { h * w ≤ length bytes.now }
    requires room { length to.old ≡ (h + 2 * n + 2) * (w + 2 * n) }
    requires zeros { (k : ℕ) → slice_index to.old k ≡ 0 }
    ensures framed { IsFramed (w + 2 * n) (h + 2 * n + 2) n to.new }
    ensures shown { (f : ℤ → ℤ → ℕ) (x y : ℤ) → Shows f x y w h bytes.now
        → Shows f (x -ℤ pos n) (y -ℤ pos n) (w + 2 * n) (h + 2 * n + 2) to.new }
{
    for k in 0..h {
        let start = (n + k) * (w + 2 * n) + n;
        to[start..start + w].copy_from_slice(&bytes[k * w..k * w + w]);
    }
}

/// The bytes of `h` rows of at least 14 bytes, softened `n` times.
pub fn softened_strips(alloc: Global, bytes: &[u8], w: usize, h: usize, n: usize) -> Mem<Vec<u8>>
    requires count { length bytes.now ≡ w * h }
    requires wide { 14 ≤ w }
    requires width { w + 2 * n < 2 ^ 32 }
    requires height { h + 2 * n < 2 ^ 32 }
    ensures count { IfOk result (λ v. length v.items ≡ (w + 2 * n) * (h + 2 * n)) }
    ensures softened { IfOk result (λ v. (f : ℤ → ℤ → ℕ) (x y : ℤ) → Shows f x y w h bytes.now
        → Shows (softened n f) (x -ℤ pos n) (y -ℤ pos n) (w + 2 * n) (h + 2 * n) v.items) }
{
    let (width, height) = (w + 2 * n, h + 2 * n);
    let mut now = vec![in alloc; 0u8; (height + 2) * width]?;
    let mut next = vec![in alloc; 0u8; (height + 2) * width]?;
    frame(now.as_mut_slice(), bytes, w, h, n);
    soften_framed(&mut now, &mut next, width, height + 2, n);
    now.truncate(height * width);
    Ok(now)
}
