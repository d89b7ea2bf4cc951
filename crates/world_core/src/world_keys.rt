//! The keys of all three kinds together, and their values.
ghost use Rattle.std.specs.Prelude.{◌≡◌, ◌+◌, ◌<◌, ◌≤◌};
ghost use Rattle.flight_cache.specs.Meaning.{shard_count};
ghost use Rattle.world_core.specs.Keys.{first_shard, key_kind, world_shard, world_shards};

use ass_num::{Mask, Mem, Region};
use bdf_font::FontSet;
use cache_kinds::{add_composite_numbers, add_mask_numbers, add_region_numbers};
use flight_cache::{Made, ShardSum};
use made_values::{mask_cost, region_cost};
use mask_keys::{CompositeKey, MaskKey, RegionKey, key_copy, mask_key_copy, region_key_copy};
use std::alloc::Global;
use std::sync::Arc;
use test_hook::ValueKind;

/// How many shards a kind has.
const SHARD_COUNT: usize = 4;

/// A key of one of the kinds.
#[derive(Debug, PartialEq, Eq, Hash, Drop)]
pub enum WorldKey {
    /// Of the region of an outline, widened or not.
    Outline(RegionKey),
    /// Of a mask.
    Mask(MaskKey),
    /// Of a composed mask.
    Composite(CompositeKey),
}

/// The value of a key.
#[derive(Debug, Drop)]
pub enum WorldValue {
    Region(Region),
    Mask(Mask),
}

/// Values of all three kinds, made from fonts.
pub struct WorldMade;

impl Made for WorldMade {
    ghost use Rattle.world_core.specs.Keys.{world_meaning};
    ghost use Rattle.world_core.specs.SameKeys.{world_same};

    type Key = WorldKey;

    type Value = WorldValue;

    type Tag = Arc<FontSet>;

    ghost meaning = { world_meaning };

    fn cost(value: &WorldValue) -> u64 {
        match value {
            WorldValue::Region(region) => u64::from(region_cost(region)),
            WorldValue::Mask(mask) => u64::from(mask_cost(mask)),
        }
    }

    fn copy(alloc: Global, key: &WorldKey) -> Mem<WorldKey> {
        match key {
            WorldKey::Outline(key) => Ok(WorldKey::Outline(region_key_copy(alloc, key)?)),
            WorldKey::Mask(key) => Ok(WorldKey::Mask(mask_key_copy(alloc, key)?)),
            WorldKey::Composite(key) => Ok(WorldKey::Composite(key_copy(alloc, key)?)),
        }
    }

    fn numbers(key: &WorldKey, sum: &mut ShardSum) {
        match key {
            WorldKey::Outline(key) => add_region_numbers(key, sum),
            WorldKey::Mask(key) => add_mask_numbers(key, sum),
            WorldKey::Composite(key) => add_composite_numbers(key, sum),
        }
    }

    ghost same_key = { world_same };
}

/// The kind of a key.
fn key_kind(key: &WorldKey) -> ValueKind
    ensures { result ≡ key_kind key.now }
{
    match key {
        WorldKey::Outline(_) => ValueKind::Outline,
        WorldKey::Mask(_) => ValueKind::Mask,
        WorldKey::Composite(_) => ValueKind::Composite,
    }
}

/// The first shard of a kind.
pub fn first_shard(kind: ValueKind) -> usize
    ensures first { result ≡ first_shard kind }
    ensures within { result + shard_count ≤ world_shards }
{
    match kind {
        ValueKind::Outline => 0,
        ValueKind::Mask => SHARD_COUNT,
        ValueKind::Composite => 2 * SHARD_COUNT,
    }
}

/// The shard of a key among all twelve.
pub fn world_shard(key: &WorldKey) -> usize
    ensures shard { result ≡ world_shard key.now }
    ensures below { result < world_shards }
{
    let mut sum = ShardSum::new();
    WorldMade::numbers(key, &mut sum);
    let first = first_shard(key_kind(key));
    first + sum.shard() as usize
}
