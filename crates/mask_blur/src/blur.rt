//! The box blur.

ghost use Rattle.std.specs.Prelude.{◌≡◌, ℕ, ℤ, pos, neg_ℤ, ◌≤◌, ◌<◌, ◌+◌, ◌*◌, ◌^◌, ◌-ℤ◌, ◌≤ℤ◌, true, length, IfOk};
ghost use Rattle.ass_num.specs.Limits.{IsMaskWithin};
ghost use Rattle.ass_num.specs.Masks.{is_mask};
ghost use Rattle.mask_blur.specs.Limits.{max_blur};
ghost use Rattle.mask_blur.specs.Shown.{Shows};
ghost use Rattle.mask_blur.specs.Blur.{blurred, IsBlurred};

use crate::columns::blur_columns_thrice;
use crate::copies::{copy_of, grown};
use crate::lines::blur_rows;
use crate::means::Means;
use ass_num::{Mask, Mem};
use std::alloc::Global;

/// The bytes of `h` rows of `w` bytes, blurred.
fn blurred_bytes(alloc: Global, bytes: &[u8], w: usize, h: usize, means: &Means) -> Mem<Vec<u8>>
    requires count { length bytes.now ≡ w * h }
    requires width { w + 6 * means.now.radius < 2 ^ 32 }
    requires height { h + 6 * means.now.radius < 2 ^ 32 }
    ensures count { IfOk result (λ v. length v.items ≡ (w + 6 * means.now.radius) * (h + 6 * means.now.radius)) }
    ensures blurred { IfOk result (λ v. (f : ℤ → ℤ → ℕ) (x y : ℤ) → Shows f x y w h bytes.now
        → Shows (blurred means.now.radius f) (x -ℤ pos (3 * means.now.radius)) (y -ℤ pos (3 * means.now.radius))
        (w + 6 * means.now.radius) (h + 6 * means.now.radius) v.items) }
{
    let r = means.radius();
    let width = w + 6 * r;
    let zeros = vec![in alloc; 0u8; width + h]?;
    let mut sums = vec![in alloc; 0u16; width + h]?;
    let mut spare = vec![in alloc; 0u8; width * (h + 4 * r)]?;
    let mut blurred = vec![in alloc; 0u8; width * (h + 6 * r)]?;
    let (to, between) = (blurred.as_mut_slice(), spare.as_mut_slice());
    let (zeros, sums) = (zeros.as_slice(), sums.as_mut_slice());
    blur_rows(to, between, &mut sums[..h], &zeros[..h], bytes, w, means);
    blur_columns_thrice(to, between, &mut sums[..width], &zeros[..width], h, means);
    Ok(blurred)
}

/// The mask, blurred with the radius `r`: three times along its rows and then three times along its columns every pixel becomes the mean of itself
/// and of the `r` pixels on both sides. The box is wider by `3 * r` pixels on each side; it must lie in the range of 32 bits.
pub fn box_blur(alloc: Global, mask: &Mask, r: u32) -> Mem<Mask>
    requires radius { r ≤ max_blur }
    requires left { neg_ℤ (pos (2 ^ 31)) ≤ℤ (mask.now.x -ℤ pos (3 * r)) }
    requires top { neg_ℤ (pos (2 ^ 31)) ≤ℤ (mask.now.y -ℤ pos (3 * r)) }
    requires width { mask.now.w + 6 * r < 2 ^ 32 }
    requires height { mask.now.h + 6 * r < 2 ^ 32 }
    ensures blurred { IfOk result (IsBlurred r mask.now) }
    ensures canonical { IfOk result (λ m. is_mask m ≡ true) }
    ensures within { IfOk result (λ m. (corner side : ℕ) → IsMaskWithin corner side mask.now → IsMaskWithin (corner + 3 * r) (side + 2 * (3 * r)) m) }
{
    if mask.w() == 0 || r == 0 {
        return copy_of(alloc, mask);
    }
    let bytes = blurred_bytes(
        alloc,
        mask.bytes(),
        mask.w() as usize,
        mask.h() as usize,
        &Means::new(r),
    )?;
    Ok(grown(mask, 3 * r, bytes))
}
