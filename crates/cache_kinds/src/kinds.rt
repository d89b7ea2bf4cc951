//! What the three caches keep. The tag of each is the fonts.

use crate::{add_composite_numbers, add_mask_numbers, add_region_numbers};
use ass_num::{Mask, Mem, Region};
use bdf_font::FontSet;
use flight_cache::{Made, ShardSum};
use made_values::{mask_cost, region_cost};
use mask_keys::{CompositeKey, MaskKey, RegionKey, key_copy, mask_key_copy, region_key_copy};
use std::alloc::Global;
use std::sync::Arc;

/// Regions of outlines, widened or not.
pub struct RegionMade;

impl Made for RegionMade {
    ghost use Rattle.cache_kinds.specs.Kinds.{region_meaning};
    ghost use Rattle.mask_keys.proofs.Equal.{region_same};

    type Key = RegionKey;

    type Value = Region;

    type Tag = Arc<FontSet>;

    ghost meaning = { region_meaning };

    fn cost(value: &Region) -> u64 {
        u64::from(region_cost(value))
    }

    fn copy(alloc: Global, key: &RegionKey) -> Mem<RegionKey> {
        region_key_copy(alloc, key)
    }

    fn numbers(key: &RegionKey, sum: &mut ShardSum) {
        add_region_numbers(key, sum);
    }

    ghost same_key = { region_same };
}

/// Masks of regions.
pub struct MaskMade;

impl Made for MaskMade {
    ghost use Rattle.cache_kinds.specs.Kinds.{mask_meaning};
    ghost use Rattle.mask_keys.proofs.Equal.{mask_same};

    type Key = MaskKey;

    type Value = Mask;

    type Tag = Arc<FontSet>;

    ghost meaning = { mask_meaning };

    fn cost(value: &Mask) -> u64 {
        u64::from(mask_cost(value))
    }

    fn copy(alloc: Global, key: &MaskKey) -> Mem<MaskKey> {
        mask_key_copy(alloc, key)
    }

    fn numbers(key: &MaskKey, sum: &mut ShardSum) {
        add_mask_numbers(key, sum);
    }

    ghost same_key = { mask_same };
}

/// Composed masks.
pub struct CompositeMade;

impl Made for CompositeMade {
    ghost use Rattle.cache_kinds.specs.Kinds.{composite_meaning};
    ghost use Rattle.mask_keys.proofs.Equal.{composite_same};

    type Key = CompositeKey;

    type Value = Mask;

    type Tag = Arc<FontSet>;

    ghost meaning = { composite_meaning };

    fn cost(value: &Mask) -> u64 {
        u64::from(mask_cost(value))
    }

    fn copy(alloc: Global, key: &CompositeKey) -> Mem<CompositeKey> {
        key_copy(alloc, key)
    }

    fn numbers(key: &CompositeKey, sum: &mut ShardSum) {
        add_composite_numbers(key, sum);
    }

    ghost same_key = { composite_same };
}
