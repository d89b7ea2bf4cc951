//! Copies of masks, and masks in wider boxes.

ghost use Rattle.std.specs.Prelude.{◌≡◌, ℕ, ℤ, pos, neg_ℤ, ◌+◌, ◌*◌, ◌<◌, ◌^◌, ◌-ℤ◌, ◌≤ℤ◌, true, length, IfOk};
ghost use Rattle.ass_num.specs.Coverage.{box_of};
ghost use Rattle.ass_num.specs.Masks.{is_mask, value_at};
ghost use Rattle.mask_blur.specs.Growth.{grown_box};
ghost use Rattle.mask_blur.specs.Shown.{Shows};

use ass_num::{Mask, Mem};
use std::alloc::Global;

/// A mask of its own with the same box and bytes.
pub fn copy_of(alloc: Global, mask: &Mask) -> Mem<Mask>
    ensures same { IfOk result (λ copy. copy ≡ mask.now) }
    ensures canonical { is_mask mask.now ≡ true }
{
    let bytes = Vec::from_slice(alloc, mask.bytes())?;
    Ok(Mask::new(mask.x(), mask.y(), mask.w(), mask.h(), bytes))
}

/// The mask of these bytes in the box that is wider by `reach` pixels on each side.
pub fn grown(mask: &Mask, reach: u32, bytes: Vec<u8>) -> Mask
    requires canonical { is_mask mask.now ≡ true }
    requires some { 0 < mask.now.w }
    requires further { 0 < reach }
    requires left { neg_ℤ (pos (2 ^ 31)) ≤ℤ (mask.now.x -ℤ pos reach) }
    requires top { neg_ℤ (pos (2 ^ 31)) ≤ℤ (mask.now.y -ℤ pos reach) }
    requires width { mask.now.w + 2 * reach < 2 ^ 32 }
    requires height { mask.now.h + 2 * reach < 2 ^ 32 }
    requires count { length bytes.items ≡ (mask.now.w + 2 * reach) * (mask.now.h + 2 * reach) }
    ensures canonical { is_mask result ≡ true }
    ensures place { box_of result ≡ grown_box reach mask.now }
    ensures value { (f : ℤ → ℤ → ℕ) → Shows f (mask.now.x -ℤ pos reach) (mask.now.y -ℤ pos reach) (mask.now.w + 2 * reach) (mask.now.h + 2 * reach) bytes.items
        → (x y : ℤ) → value_at result x y ≡ f x y }
{
    Mask::new(
        mask.x() - reach as i32,
        mask.y() - reach as i32,
        mask.w() + 2 * reach,
        mask.h() + 2 * reach,
        bytes,
    )
}
