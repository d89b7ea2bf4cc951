//! The masks of regions.

ghost use Rattle.std.specs.Prelude.{◌≡◌, ℕ, ◌+◌, ◌*◌, ◌≤◌, ◌<◌, true, IfOk};
ghost use Rattle.std.specs.Arc.{arc_value};
ghost use Rattle.ass_num.specs.Limits.{IsMaskWithin, IsRegionWithin, max_sample, max_mask_corner, max_mask_side};
ghost use Rattle.ass_num.specs.Masks.{is_mask};
ghost use Rattle.mask_keys.specs.Keys.{HasMaskRanges, max_blur_radius, max_passes, samples_across};
ghost use Rattle.mask_keys.specs.Masks.{blurred_mask, covered_mask, softened_mask};
ghost use Rattle.mask_keys.specs.Regions.{widened_region};
ghost use Rattle.sample_region.specs.Limits.{max_inside};
ghost use Rattle.made_values.specs.Reach.{max_covered_corner, max_covered_side};
ghost use Rattle.mask_keys.specs.Values.{mask_of_region};

use crate::regions::made_border;
use ass_num::{Mask, Mem, Region};
use mask_blur::{box_blur, soften};
use mask_cover::cover;
use mask_keys::MaskKey;
use std::alloc::Global;
use std::sync::Arc;

/// The mask of a region at a phase.
fn covered(alloc: Global, region: &Region, px: u8, py: u8) -> Mem<Mask>
    requires region { IsRegionWithin max_sample region.now.top region.now.rows }
    requires px { px < samples_across }
    requires py { py < samples_across }
    ensures value { IfOk result (λ m. m ≡ covered_mask px py region.now) }
    ensures canonical { IfOk result (λ m. is_mask m ≡ true) }
    ensures within { IfOk result (IsMaskWithin max_covered_corner max_covered_side) }
{
    cover(alloc, region, px, py)
}

/// A mask after so many passes of softening.
fn softened(alloc: Global, mask: Mask, passes: u8) -> Mem<Mask>
    requires canonical { is_mask mask ≡ true }
    requires within { IsMaskWithin max_mask_corner max_mask_side mask }
    ensures value { IfOk result (λ m. m ≡ softened_mask passes mask) }
    ensures canonical { IfOk result (λ m. is_mask m ≡ true) }
    ensures within { IfOk result (λ m. (corner side : ℕ) → IsMaskWithin corner side mask → IsMaskWithin (corner + passes) (side + 2 * passes) m) }
{
    if passes == 0 {
        return Ok(mask);
    }
    soften(alloc, &mask, u32::from(passes))
}

/// A mask after a blur.
fn blurred(alloc: Global, mask: Mask, radius: u8) -> Mem<Mask>
    requires canonical { is_mask mask ≡ true }
    requires within { IsMaskWithin max_mask_corner max_mask_side mask }
    requires radius { radius ≤ max_blur_radius }
    ensures value { IfOk result (λ m. m ≡ blurred_mask radius mask) }
    ensures within { IfOk result (λ m. (corner side : ℕ) → IsMaskWithin corner side mask → IsMaskWithin (corner + 3 * radius) (side + 6 * radius) m) }
{
    if radius == 0 {
        return Ok(mask);
    }
    box_blur(alloc, &mask, u32::from(radius))
}

/// The mask that a key makes of a region, which is widened already where the key has a border: the coverage at its
/// phase, softened, and then blurred. The samples of the region lie within 131,072 of 0.
pub fn mask_of_region(alloc: Global, region: &Region, key: &MaskKey) -> Mem<Mask>
    requires region { IsRegionWithin max_sample region.now.top region.now.rows }
    requires key { HasMaskRanges key.now }
    ensures value { IfOk result (λ m. m ≡ mask_of_region key.now region.now) }
    ensures within { IfOk result (IsMaskWithin max_mask_corner max_mask_side) }
{
    let mask = covered(alloc, region, key.px, key.py)?;
    let soft = softened(alloc, mask, key.edges)?;
    blurred(alloc, soft, key.blur)
}

/// The mask that a key makes of its region.
pub fn mask_from(alloc: Global, region: &Region, key: &MaskKey) -> Mem<Arc<Mask>>
    requires region { IsRegionWithin max_sample region.now.top region.now.rows }
    requires key { HasMaskRanges key.now }
    ensures { IfOk result (λ a. arc_value a ≡ mask_of_region key.now region.now) }
{
    let mask = mask_of_region(alloc, region, key)?;
    Ok(Arc::new(alloc, mask)?)
}

/// The mask of a key, from the region of its outline, whose samples lie within 65,536 of 0.
pub fn made_mask(alloc: Global, region: &Region, key: &MaskKey) -> Mem<Mask>
    requires region { IsRegionWithin max_inside region.now.top region.now.rows }
    requires key { HasMaskRanges key.now }
    ensures value { IfOk result (λ m. m ≡ mask_of_region key.now (widened_region key.now.rx key.now.ry region.now)) }
    ensures within { IfOk result (IsMaskWithin max_mask_corner max_mask_side) }
{
    if key.rx == 0 && key.ry == 0 {
        return unwidened_mask(alloc, region, key);
    }
    let border = made_border(alloc, region, key.rx, key.ry)?;
    mask_of_region(alloc, &border, key)
}

/// The mask of a key without a border, from the region of its outline.
fn unwidened_mask(alloc: Global, region: &Region, key: &MaskKey) -> Mem<Mask>
    requires region { IsRegionWithin max_inside region.now.top region.now.rows }
    requires key { HasMaskRanges key.now }
    ensures value { IfOk result (λ m. m ≡ mask_of_region key.now (widened_region 0 0 region.now)) }
    ensures within { IfOk result (IsMaskWithin max_mask_corner max_mask_side) }
{
    // The rows tell that the region has its one form, in which widening by nothing leaves it.
    let _rows = region.rows();
    mask_of_region(alloc, region, key)
}
