//! Blurring along rows.

ghost use Rattle.std.specs.Prelude.{◌≡◌, ℕ, ℤ, pos, ◌≤◌, ◌<◌, ◌+◌, ◌*◌, ◌-ℤ◌, ◌^◌, length, slice_index};
ghost use Rattle.mask_blur.specs.Blur.{along_rows};
ghost use Rattle.mask_blur.specs.Shown.{Shows};

use crate::columns::blur_columns_thrice;
use crate::means::Means;
use crate::transposing::transpose;

/// Three passes along as many rows of `w` bytes as there are zeros, into `spare`: as columns many rows go at once.
pub fn blur_rows(
    to: &mut [u8],
    spare: &mut [u8],
    sums: &mut [u16],
    zeros: &[u8],
    from: &[u8],
    w: usize,
    means: &Means,
)
    requires width { w + 6 * means.now.radius < 2 ^ 32 }
    requires rows { length zeros.now * w ≤ length from.now }
    requires room { (w + 6 * means.now.radius) * length zeros.now ≤ length to.old }
    requires spare { length zeros.now * (w + 6 * means.now.radius) ≤ length spare.old }
    requires sums { length sums.old ≡ length zeros.now }
    requires zeros { (i : ℕ) → slice_index zeros.now i ≡ 0 }
    ensures { (f : ℤ → ℤ → ℕ) (x y : ℤ) → Shows f x y w (length zeros.now) from.now
        → Shows (along_rows means.now.radius (along_rows means.now.radius (along_rows means.now.radius f)))
        (x -ℤ pos (3 * means.now.radius)) y (w + 6 * means.now.radius) (length zeros.now) spare.new }
{
    let h = zeros.len();
    transpose(spare, from, w, h);
    blur_columns_thrice(to, spare, sums, zeros, w, means);
    transpose(spare, to, h, w + 6 * means.radius());
}
