//! Softening.

ghost use Rattle.std.specs.Prelude.{◌≡◌, ℕ, ℤ, pos, neg_ℤ, ◌≤◌, ◌<◌, ◌+◌, ◌*◌, ◌^◌, ◌-ℤ◌, ◌≤ℤ◌, true, length, slice_index, IfOk};
ghost use Rattle.ass_num.specs.Limits.{IsMaskWithin};
ghost use Rattle.ass_num.specs.Masks.{is_mask};
ghost use Rattle.mask_blur.specs.Shown.{Shows};
ghost use Rattle.mask_blur.specs.Softening.{softer, softened, IsSoftened};

use crate::copies::{copy_of, grown};
use crate::rows::row_or_zeros;
use crate::strips::softened_strips;
use crate::weights::soften_row;
use ass_num::{Mask, Mem};
use std::alloc::Global;
use std::mem::swap;

/// One pass over `h` rows of as many bytes as there are zeros. The sums are 0 but for those of the rows' columns.
fn soften_once(to: &mut [u8], sums: &mut [u16], from: &[u8], zeros: &[u8], h: usize)
    requires rows { h * length zeros.now ≤ length from.now }
    requires room { (h + 2) * (length zeros.now + 2) ≤ length to.old }
    requires height { h + 2 < 2 ^ 64 }
    requires sums { length zeros.now + 4 ≤ length sums.old }
    requires zeros { (i : ℕ) → slice_index zeros.now i ≡ 0 }
    requires before { (k : ℕ) → k < 2 → slice_index sums.old k ≡ 0 }
    requires behind { (k : ℕ) → length zeros.now + 2 ≤ k → slice_index sums.old k ≡ 0 }
    ensures before { (k : ℕ) → k < 2 → slice_index sums.new k ≡ 0 }
    ensures behind { (k : ℕ) → length zeros.now + 2 ≤ k → slice_index sums.new k ≡ 0 }
    ensures softer { (f : ℤ → ℤ → ℕ) (x y : ℤ) → Shows f x y (length zeros.now) h from.now
        → Shows (softer f) (x -ℤ pos 1) (y -ℤ pos 1) (length zeros.now + 2) (h + 2) to.new }
{
    let w = zeros.len() + 2;
    for k in 0..h + 2 {
        let above = row_or_zeros(from, zeros, h, k, 2);
        let middle = row_or_zeros(from, zeros, h, k, 1);
        let below = row_or_zeros(from, zeros, h, k, 0);
        soften_row(&mut to[k * w..k * w + w], sums, above, middle, below);
    }
}

/// So many passes between two buffers; `now` begins with the bytes of `h` rows of `w` bytes, and ends with those after the last pass.
fn soften_on(
    now: &mut Vec<u8>,
    next: &mut Vec<u8>,
    sums: &mut [u16],
    zeros: &[u8],
    w: usize,
    h: usize,
    n: usize,
)
    requires now { length now.old.items ≡ (w + 2 * n) * (h + 2 * n) }
    requires next { 0 < n → length next.old.items ≡ (w + 2 * n) * (h + 2 * n) }
    requires width { w + 2 * n < 2 ^ 32 }
    requires height { h + 2 * n < 2 ^ 32 }
    requires count { length zeros.now ≡ w + 2 * n }
    requires sums { length sums.old ≡ w + 2 * n + 2 }
    requires zeros { (i : ℕ) → slice_index zeros.now i ≡ 0 }
    requires before { (k : ℕ) → k < 2 → slice_index sums.old k ≡ 0 }
    requires behind { (k : ℕ) → w + 2 ≤ k → slice_index sums.old k ≡ 0 }
    ensures count { length now.new.items ≡ (w + 2 * n) * (h + 2 * n) }
    ensures softened { (f : ℤ → ℤ → ℕ) (x y : ℤ) → Shows f x y w h now.old.items
        → Shows (softened n f) (x -ℤ pos n) (y -ℤ pos n) (w + 2 * n) (h + 2 * n) now.new.items }
{
    for k in 0..n {
        soften_once(
            next.as_mut_slice(),
            sums,
            now.as_slice(),
            &zeros[..w + 2 * k],
            h + 2 * k,
        );
        swap(now, next);
    }
}

/// The bytes of `h` rows of `w` bytes, softened `n` times, row by row.
fn softened_rows(alloc: Global, bytes: &[u8], w: usize, h: usize, n: usize) -> Mem<Vec<u8>>
    requires count { length bytes.now ≡ w * h }
    requires passes { 0 < n }
    requires width { w + 2 * n < 2 ^ 32 }
    requires height { h + 2 * n < 2 ^ 32 }
    ensures count { IfOk result (λ v. length v.items ≡ (w + 2 * n) * (h + 2 * n)) }
    ensures softened { IfOk result (λ v. (f : ℤ → ℤ → ℕ) (x y : ℤ) → Shows f x y w h bytes.now
        → Shows (softened n f) (x -ℤ pos n) (y -ℤ pos n) (w + 2 * n) (h + 2 * n) v.items) }
{
    let (width, height) = (w + 2 * n, h + 2 * n);
    let zeros = vec![in alloc; 0u8; width]?;
    let mut sums = vec![in alloc; 0u16; width + 2]?;
    let mut now = vec![in alloc; 0u8; width * height]?;
    let spare = if n == 1 { 0 } else { width * height };
    let mut next = vec![in alloc; 0u8; spare]?;
    let (zeros, sums) = (zeros.as_slice(), sums.as_mut_slice());
    soften_once(now.as_mut_slice(), sums, bytes, &zeros[..w], h);
    soften_on(&mut now, &mut next, sums, zeros, w + 2, h + 2, n - 1);
    Ok(now)
}

/// The bytes of `h` rows of `w` bytes, softened `n` times: along strips, which are 16 columns wide, or row by row.
fn softened_bytes(alloc: Global, bytes: &[u8], w: usize, h: usize, n: usize) -> Mem<Vec<u8>>
    requires count { length bytes.now ≡ w * h }
    requires passes { 0 < n }
    requires width { w + 2 * n < 2 ^ 32 }
    requires height { h + 2 * n < 2 ^ 32 }
    ensures count { IfOk result (λ v. length v.items ≡ (w + 2 * n) * (h + 2 * n)) }
    ensures softened { IfOk result (λ v. (f : ℤ → ℤ → ℕ) (x y : ℤ) → Shows f x y w h bytes.now
        → Shows (softened n f) (x -ℤ pos n) (y -ℤ pos n) (w + 2 * n) (h + 2 * n) v.items) }
{
    if w < 14 {
        softened_rows(alloc, bytes, w, h, n)
    } else {
        softened_strips(alloc, bytes, w, h, n)
    }
}

/// The mask, softened `n` times: in each pass every pixel becomes the mean of the nine pixels around it, with the weights 1 2 1, 2 4 2, 1 2 1,
/// and the box is wider by a pixel on each side. The wider box must lie in the range of 32 bits.
pub fn soften(alloc: Global, mask: &Mask, n: u32) -> Mem<Mask>
    requires left { neg_ℤ (pos (2 ^ 31)) ≤ℤ (mask.now.x -ℤ pos n) }
    requires top { neg_ℤ (pos (2 ^ 31)) ≤ℤ (mask.now.y -ℤ pos n) }
    requires width { mask.now.w + 2 * n < 2 ^ 32 }
    requires height { mask.now.h + 2 * n < 2 ^ 32 }
    ensures softened { IfOk result (IsSoftened n mask.now) }
    ensures canonical { IfOk result (λ m. is_mask m ≡ true) }
    ensures within { IfOk result (λ m. (corner side : ℕ) → IsMaskWithin corner side mask.now → IsMaskWithin (corner + n) (side + 2 * n) m) }
{
    if mask.w() == 0 || n == 0 {
        return copy_of(alloc, mask);
    }
    let bytes = softened_bytes(
        alloc,
        mask.bytes(),
        mask.w() as usize,
        mask.h() as usize,
        n as usize,
    )?;
    Ok(grown(mask, n, bytes))
}
