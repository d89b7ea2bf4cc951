//! Laws of values. The functions do nothing: their contracts are the laws.

ghost use Rattle.std.specs.Prelude.{◌≡◌, ℤ, ◌<◌, ◌≤◌, ◌^◌, true, List};
ghost use Rattle.ass_num.specs.Coverage.{IsCover};
ghost use Rattle.ass_num.specs.Limits.{IsMaskWithin, IsRegionWithin, max_mask_corner, max_mask_side, max_sample};
ghost use Rattle.ass_num.specs.Masks.{MaskValue, value_at};
ghost use Rattle.ass_num.specs.Regions.{RegionValue, is_canonical, member};
ghost use Rattle.bdf_font.specs.Fonts.{FontValue};
ghost use Rattle.mask_keys.specs.Equality.{equal_outlines, equal_regions, equal_masks, equal_composites};
ghost use Rattle.mask_keys.specs.Keys.{HasMaskRanges, IsValidRegion, region_key};
ghost use Rattle.mask_keys.specs.Costs.{region_cost, mask_cost};
ghost use Rattle.mask_keys.specs.Masks.{covered_mask};
ghost use Rattle.mask_keys.specs.Meanings.{HasItsSamples};
ghost use Rattle.mask_keys.specs.Outlines.{glyph_counts};
ghost use Rattle.sample_region.specs.Limits.{max_inside};
ghost use Rattle.mask_keys.specs.Values.{composite_value, mask_value, outline_value, region_value};

use crate::{CompositeKey, MaskKey, OutlineKey, RegionKey};

/// A cost has 32 bits.
pub fn costs_are_words()
    ensures regions { (r : RegionValue) → region_cost r < 2 ^ 32 }
    ensures masks { (m : MaskValue) → mask_cost m < 2 ^ 32 }
{}

/// Keys that are equal by `==` have one value.
pub fn equal_keys_have_one_value()
    ensures outlines { (fonts : List FontValue) (a b : OutlineKey) → equal_outlines a b ≡ true → outline_value fonts a ≡ outline_value fonts b }
    ensures regions { (fonts : List FontValue) (a b : RegionKey) → equal_regions a b ≡ true → region_value fonts a ≡ region_value fonts b }
    ensures masks { (fonts : List FontValue) (a b : MaskKey) → equal_masks a b ≡ true → mask_value fonts a ≡ mask_value fonts b }
    ensures composites { (fonts : List FontValue) (a b : CompositeKey) → equal_composites a b ≡ true → composite_value fonts a ≡ composite_value fonts b }
{}

/// The region of a key is in canonical form and reaches no farther than its outline and its border can.
pub fn regions_have_one_form()
    ensures outline { (fonts : List FontValue) (key : OutlineKey) → is_canonical (outline_value fonts key).top (outline_value fonts key).rows ≡ true }
    ensures near { (fonts : List FontValue) (key : OutlineKey) → IsRegionWithin max_inside (outline_value fonts key).top (outline_value fonts key).rows }
    ensures region { (fonts : List FontValue) (key : RegionKey) → is_canonical (region_value fonts key).top (region_value fonts key).rows ≡ true }
    ensures within { (fonts : List FontValue) (key : RegionKey) → IsRegionWithin max_sample (region_value fonts key).top (region_value fonts key).rows }
{}

/// The region of a valid key has just the samples that lie in reach of one inside the key's outline.
pub fn regions_have_their_samples()
    ensures { (fonts : List FontValue) (key : RegionKey) → IsValidRegion (glyph_counts fonts) key → HasItsSamples fonts key (region_value fonts key) }
{}

/// The mask of a key lies near enough to 0 and is small enough to be added to others, and has no value above 255.
pub fn masks_can_be_added()
    ensures near { (fonts : List FontValue) (key : MaskKey) → HasMaskRanges key → IsMaskWithin max_mask_corner max_mask_side (mask_value fonts key) }
    ensures bytes { (fonts : List FontValue) (key : MaskKey) (x y : ℤ) → value_at (mask_value fonts key) x y ≤ 255 }
{}

/// Before it is softened and blurred, the mask of a key has the coverage of each pixel by the key's region, in the least box of the pixels that have a sample.
pub fn masks_cover_their_samples()
    ensures { (fonts : List FontValue) (key : MaskKey) → HasMaskRanges key
        → IsCover (member (region_value fonts (region_key key)).top (region_value fonts (region_key key)).rows) key.px key.py
        (covered_mask key.px key.py (region_value fonts (region_key key))) }
{}
