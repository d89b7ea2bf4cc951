//! Copies of keys.

ghost use Rattle.std.specs.Prelude.{◌≡◌, IfOk};
ghost use Rattle.mask_keys.specs.Keys.{region_key, unwidened};

use crate::composite_key::CompositeKey;
use crate::mask_key::MaskKey;
use crate::outline_key::OutlineKey;
use crate::region_key::RegionKey;
use ass_num::Mem;
use std::alloc::Global;

/// A copy of a composite's key.
#[tactic(auto, using(crate::proofs::Copied::composite_same))]
pub fn key_copy(alloc: Global, key: &CompositeKey) -> Mem<CompositeKey>
    ensures { IfOk result (λ copy. copy ≡ key.now) }
{
    Ok(key.clone()?)
}

/// A copy of a mask's key.
#[tactic(auto, using(crate::proofs::Copied::mask_same))]
pub fn mask_key_copy(alloc: Global, mask: &MaskKey) -> Mem<MaskKey>
    ensures { IfOk result (λ copy. copy ≡ mask.now) }
{
    Ok(mask.clone()?)
}

/// A copy of an outline's key.
#[tactic(auto, using(crate::proofs::Copied::outline_same))]
pub fn outline_key_copy(alloc: Global, outline: &OutlineKey) -> Mem<OutlineKey>
    ensures { IfOk result (λ copy. copy ≡ outline.now) }
{
    Ok(outline.clone()?)
}

/// A copy of a region's key.
#[tactic(auto, using(crate::proofs::Copied::region_same))]
pub fn region_key_copy(alloc: Global, region: &RegionKey) -> Mem<RegionKey>
    ensures { IfOk result (λ copy. copy ≡ region.now) }
{
    Ok(region.clone()?)
}

/// The key of the region that a mask is made of: its outline, widened by its radii.
pub fn region_key_of(alloc: Global, mask: &MaskKey) -> Mem<RegionKey>
    ensures { IfOk result (λ region. region ≡ region_key mask.now) }
{
    Ok(RegionKey {
        outline: outline_key_copy(alloc, &mask.outline)?,
        rx: mask.rx,
        ry: mask.ry,
    })
}

/// The key of the region that a widened one is made from.
pub fn unwidened(alloc: Global, key: &RegionKey) -> Mem<RegionKey>
    ensures { IfOk result (λ k. k ≡ unwidened key.now) }
{
    Ok(RegionKey {
        outline: outline_key_copy(alloc, &key.outline)?,
        rx: 0,
        ry: 0,
    })
}
