//! Laws of keys. The functions do nothing: their contracts are the laws.

ghost use Rattle.std.specs.Prelude.{◌≡◌, true};
ghost use Rattle.std.specs.Bool.{Decides};
ghost use Rattle.mask_keys.specs.Equality.{
  equal_outlines,
  equal_regions,
  equal_masks,
  equal_composites,
  outline_writes,
  region_writes,
  mask_writes,
  composite_writes,
};

use crate::composite_key::CompositeKey;
use crate::mask_key::MaskKey;
use crate::outline_key::OutlineKey;
use crate::region_key::RegionKey;

/// Keys are equal by `==` exactly where all their fields are.
pub fn equal_keys()
    ensures outlines { (a b : OutlineKey) → Decides (equal_outlines a b) (a ≡ b) }
    ensures regions { (a b : RegionKey) → Decides (equal_regions a b) (a ≡ b) }
    ensures masks { (a b : MaskKey) → Decides (equal_masks a b) (a ≡ b) }
    ensures composites { (a b : CompositeKey) → Decides (equal_composites a b) (a ≡ b) }
{}

/// Equal keys feed a hasher the same.
pub fn equal_hashes()
    ensures outlines { (a b : OutlineKey) → equal_outlines a b ≡ true → outline_writes a ≡ outline_writes b }
    ensures regions { (a b : RegionKey) → equal_regions a b ≡ true → region_writes a ≡ region_writes b }
    ensures masks { (a b : MaskKey) → equal_masks a b ≡ true → mask_writes a ≡ mask_writes b }
    ensures composites { (a b : CompositeKey) → equal_composites a b ≡ true → composite_writes a ≡ composite_writes b }
{}
