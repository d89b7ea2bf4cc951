//! Sums of masks.

ghost use Rattle.std.specs.Prelude.{◌≡◌, ℕ, ◌≤◌, true, ℤ, pos, List, [], ◌∷◌, ◌++◌, length, map, slice_index, All, IfOk};
ghost use Rattle.std.specs.Arc.{arc_value};
ghost use Rattle.ass_num.specs.Coverage.{InBox, IsMovedPixel, box_of};
ghost use Rattle.ass_num.specs.Limits.{IsMaskWithin, max_mask_corner, max_mask_side};
ghost use Rattle.ass_num.specs.Masks.{MaskValue, is_mask};
ghost use Rattle.mask_cover.specs.Sums.{HasSum, IsBoxOf, IsPlaceableMask};
ghost use Rattle.mask_keys.specs.Masks.{summed_mask};
ghost use Rattle.made_values.specs.Parts.{placed_masks};

use ass_num::{Mask, Mem};
use mask_cover::{Extent, MaskSum};
use mask_keys::Part;
use std::alloc::Global;
use std::sync::Arc;

/// The least box that has this one, and that of a part's mask.
fn with_part(extent: Extent, mask: &Mask, part: &Part) -> Extent
    requires { IsPlaceableMask (mask.now, part.now.dx, part.now.dy) }
    ensures { (placed : List (MaskValue × ℤ × ℤ)) → IsBoxOf placed extent → IsBoxOf (placed ++ (mask.now, part.now.dx, part.now.dy) ∷ []) result }
{
    extent.with(mask, part.dx, part.dy)
}

/// The least box that has the boxes of the parts' masks.
fn extent_of(parts: &[Part], masks: &[Arc<Mask>]) -> Extent
    requires count { length masks.now ≡ length parts.now }
    requires masks { All IsPlaceableMask (placed_masks parts.now (map arc_value masks.now)) }
    ensures { IsBoxOf (placed_masks parts.now (map arc_value masks.now)) result }
{
    let mut extent = Extent::empty();
    for k in 0..parts.len() {
        extent = with_part(extent, &masks[k], &parts[k]);
    }
    extent
}

/// Adds a part's mask, whose moved box must lie in the sum's.
fn add_part(sum: &mut MaskSum, mask: &Mask, part: &Part)
    requires { (i j : ℤ) → IsMovedPixel (mask.now, part.now.dx, part.now.dy) i j → InBox (box_of sum.old) i j }
    ensures place { box_of sum.new ≡ box_of sum.old }
    ensures sum { (placed : List (MaskValue × ℤ × ℤ)) → HasSum placed sum.old → HasSum (placed ++ (mask.now, part.now.dx, part.now.dy) ∷ []) sum.new }
{
    sum.add(mask, part.dx, part.dy);
}

/// The sum of the parts' masks, each moved by its part's offset, at most 255 at each pixel.
fn sum_of_parts(alloc: Global, parts: &[Part], masks: &[Arc<Mask>]) -> Mem<Mask>
    requires count { length masks.now ≡ length parts.now }
    requires masks { All IsPlaceableMask (placed_masks parts.now (map arc_value masks.now)) }
    ensures { IfOk result (λ m. m ≡ summed_mask (placed_masks parts.now (map arc_value masks.now))) }
{
    let mut sum = MaskSum::new(alloc, &extent_of(parts, masks))?;
    for k in 0..parts.len() {
        add_part(&mut sum, &masks[k], &parts[k]);
    }
    Ok(sum.into_mask())
}

/// Bytes are at most 255, as their type says.
fn proof_most_255(bytes: &[u8])
    ensures { (k : ℕ) → slice_index bytes.now k ≤ 255 }
{}

/// The composed mask of one part that isn't moved: the part's own, which is shared and not copied.
fn shared_mask(mask: &Arc<Mask>) -> Mem<Arc<Mask>>
    requires { IsMaskWithin max_mask_corner max_mask_side (arc_value mask.now) }
    ensures { IfOk result (λ m. arc_value m ≡ summed_mask ((arc_value mask.now, pos 0, pos 0) ∷ [])) }
{
    // The bytes tell that the mask has its one form.
    let bytes = mask.bytes();
    proof_most_255(bytes);
    Ok(Arc::try_clone(mask)?)
}

/// The composed mask of parts, from their masks in the same order. The mask of one part that isn't moved is shared and
/// not copied. The masks lie within 65,536 of 0 with at most as many pixels along a side, as those of keys do, and are
/// moved by no more than 32,768.
pub fn made_composite(alloc: Global, parts: &[Part], masks: &[Arc<Mask>]) -> Mem<Arc<Mask>>
    requires count { length masks.now ≡ length parts.now }
    requires masks { All IsPlaceableMask (placed_masks parts.now (map arc_value masks.now)) }
    ensures { IfOk result (λ m. arc_value m ≡ summed_mask (placed_masks parts.now (map arc_value masks.now))) }
{
    if let [part] = parts {
        if part.dx == 0 && part.dy == 0 {
            return shared_mask(&masks[0]);
        }
    }
    Ok(Arc::new(alloc, sum_of_parts(alloc, parts, masks)?)?)
}
