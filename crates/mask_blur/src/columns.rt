//! Blurring along columns.

ghost use Rattle.std.specs.Prelude.{◌≡◌, ℕ, ℤ, pos, ◌≤◌, ◌<◌, ◌+◌, ◌*◌, ◌/◌, ◌-ℤ◌, ◌^◌, ◌⊎◌, length, slice_index};
ghost use Rattle.mask_blur.specs.Blur.{along_columns};
ghost use Rattle.mask_blur.specs.Shown.{Shows, IsCellAt};

use crate::means::Means;
use crate::rows::{part_or_zeros, row_or_zeros};

/// Moves the columns' sums, which have the radius in them, down by a row, and writes their means.
fn slide(to: &mut [u8], sums: &mut [u16], entering: &[u8], leaving: &[u8], means: &Means)
    requires sums { length sums.old ≡ length to.old }
    requires entering { length entering.now ≡ length to.old }
    requires leaving { length leaving.now ≡ length to.old }
    requires window { (k : ℕ) → k < length to.old → (slice_index leaving.now k ≤ slice_index sums.old k + slice_index entering.now k)
        × (slice_index sums.old k + slice_index entering.now k < 256 * (2 * means.now.radius + 1) + slice_index leaving.now k) }
    ensures sums { (k : ℕ) → k < length to.old
        → slice_index sums.new k + slice_index leaving.now k ≡ slice_index sums.old k + slice_index entering.now k }
    ensures means { (k : ℕ) → k < length to.old → slice_index to.new k ≡ slice_index sums.new k / (2 * means.now.radius + 1) }
{
    // a copy: what lies behind a reference would be read again after each write
    let own = *means;
    for k in 0..to.len() {
        let sum = sums[k] + u16::from(entering[k]) - u16::from(leaving[k]);
        sums[k] = sum;
        to[k] = own.of(sum);
    }
}

/// One pass along the columns of `h` rows of as many bytes as there are zeros, row by row.
fn blur_few(to: &mut [u8], sums: &mut [u16], from: &[u8], zeros: &[u8], h: usize, means: &Means)
    requires height { h < 2 ^ 33 }
    requires rows { h * length zeros.now ≤ length from.now }
    requires room { (h + 2 * means.now.radius) * length zeros.now ≤ length to.old }
    requires sums { length sums.old ≡ length zeros.now }
    requires zeros { (i : ℕ) → slice_index zeros.now i ≡ 0 }
    ensures { (f : ℤ → ℤ → ℕ) (x y : ℤ) → Shows f x y (length zeros.now) h from.now
        → Shows (along_columns means.now.radius f) x (y -ℤ pos means.now.radius) (length zeros.now) (h + 2 * means.now.radius) to.new }
{
    let w = zeros.len();
    let r = means.radius();
    sums.fill(r as u16);
    for k in 0..h + 2 * r {
        let entering = row_or_zeros(from, zeros, h, k, 0);
        let leaving = row_or_zeros(from, zeros, h, k, 2 * r + 1);
        slide(&mut to[k * w..k * w + w], sums, entering, leaving, means);
    }
}

/// One pass along 16 of the columns of `h` rows, from column `at` on: their sums stay in registers.
fn blur_strip(to: &mut [u8], from: &[u8], w: usize, h: usize, at: usize, means: &Means)
    requires height { h < 2 ^ 33 }
    requires rows { h * w ≤ length from.now }
    requires room { (h + 2 * means.now.radius) * w ≤ length to.old }
    requires columns { at + 16 ≤ w }
    ensures { (f : ℤ → ℤ → ℕ) (x y : ℤ) → Shows f x y w h from.now
        → (j i : ℕ) → j < h + 2 * means.now.radius → i < w
        → ((at ≤ i) × (i < at + 16)) ⊎ IsCellAt (along_columns means.now.radius f) x (y -ℤ pos means.now.radius) w to.old i j
        → IsCellAt (along_columns means.now.radius f) x (y -ℤ pos means.now.radius) w to.new i j }
{
    let r = means.radius();
    let own = *means;
    let mut sums = [r as u16; 16];
    for k in 0..h + 2 * r {
        let entering = part_or_zeros(from, w, h, k, 0, at);
        let leaving = part_or_zeros(from, w, h, k, 2 * r + 1, at);
        let start = k * w + at;
        slide(
            &mut to[start..start + 16],
            &mut sums,
            &entering,
            &leaving,
            &own,
        );
    }
}

/// One pass along at least 16 columns.
fn blur_strips(to: &mut [u8], from: &[u8], w: usize, h: usize, means: &Means)
    requires height { h < 2 ^ 33 }
    requires rows { h * w ≤ length from.now }
    requires room { (h + 2 * means.now.radius) * w ≤ length to.old }
    requires columns { 16 ≤ w }
    ensures { (f : ℤ → ℤ → ℕ) (x y : ℤ) → Shows f x y w h from.now
        → Shows (along_columns means.now.radius f) x (y -ℤ pos means.now.radius) w (h + 2 * means.now.radius) to.new }
{
    for q in 0..(w - 1) / 16 {
        blur_strip(to, from, w, h, 16 * q, means);
    }
    blur_strip(to, from, w, h, w - 16, means);
}

/// One pass along the columns of `h` rows of as many bytes as there are zeros.
fn blur_columns(to: &mut [u8], sums: &mut [u16], from: &[u8], zeros: &[u8], h: usize, means: &Means)
    requires height { h < 2 ^ 33 }
    requires rows { h * length zeros.now ≤ length from.now }
    requires room { (h + 2 * means.now.radius) * length zeros.now ≤ length to.old }
    requires sums { length sums.old ≡ length zeros.now }
    requires zeros { (i : ℕ) → slice_index zeros.now i ≡ 0 }
    ensures { (f : ℤ → ℤ → ℕ) (x y : ℤ) → Shows f x y (length zeros.now) h from.now
        → Shows (along_columns means.now.radius f) x (y -ℤ pos means.now.radius) (length zeros.now) (h + 2 * means.now.radius) to.new }
{
    if zeros.len() < 16 {
        blur_few(to, sums, from, zeros, h, means);
    } else {
        blur_strips(to, from, zeros.len(), h, means);
    }
}

/// Three passes along the columns of the `h` rows in `spare`, which holds the second pass too; a row has as many bytes as there are zeros.
pub fn blur_columns_thrice(
    to: &mut [u8],
    spare: &mut [u8],
    sums: &mut [u16],
    zeros: &[u8],
    h: usize,
    means: &Means,
)
    requires height { h + 6 * means.now.radius < 2 ^ 32 }
    requires room { (h + 6 * means.now.radius) * length zeros.now ≤ length to.old }
    requires spare { (h + 4 * means.now.radius) * length zeros.now ≤ length spare.old }
    requires sums { length sums.old ≡ length zeros.now }
    requires zeros { (i : ℕ) → slice_index zeros.now i ≡ 0 }
    ensures { (f : ℤ → ℤ → ℕ) (x y : ℤ) → Shows f x y (length zeros.now) h spare.old
        → Shows (along_columns means.now.radius (along_columns means.now.radius (along_columns means.now.radius f)))
        x (y -ℤ pos (3 * means.now.radius)) (length zeros.now) (h + 6 * means.now.radius) to.new }
{
    let r = means.radius();
    blur_columns(to, sums, spare, zeros, h, means);
    blur_columns(spare, sums, to, zeros, h + 2 * r, means);
    blur_columns(to, sums, spare, zeros, h + 4 * r, means);
}
