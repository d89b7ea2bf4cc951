//! A key of each kind: what its value costs, and its shard.
ghost use Rattle.std.specs.Prelude.{[], IfOk};
ghost use Rattle.mask_keys.specs.Keys.{IsValidComposite, IsValidMask, IsValidOutline, IsValidPart};
ghost use Rattle.world_core.specs.Keys.{IsValidWorldKey};

use ass_num::{Items, Mem};
use bdf_font::FontSet;
use flight_cache::Made;
use mask_keys::{CompositeKey, MaskKey, OutlineKey, Part, RegionKey};
use std::alloc::Global;
use std::test::Fail;
use test_hook::ValueKind;
use world_core::{WorldKey, WorldMade, first_shard, made_value, world_shard};

/// A box of one pixel.
fn pixel() -> OutlineKey
    ensures { IsValidOutline [] result }
{
    OutlineKey::Box {
        w: 64,
        h: 64,
        turn: 0,
    }
}

fn region_key() -> WorldKey
    ensures { IsValidWorldKey [] result }
{
    WorldKey::Outline(RegionKey {
        outline: pixel(),
        rx: 0,
        ry: 0,
    })
}

fn mask() -> MaskKey
    ensures { IsValidMask [] result }
{
    MaskKey {
        outline: pixel(),
        rx: 0,
        ry: 0,
        px: 0,
        py: 0,
        edges: 0,
        blur: 0,
    }
}

/// Moved so many pixels to the right.
fn moved(dx: u8) -> Part
    ensures { IsValidPart [] result }
{
    Part {
        mask: mask(),
        dx: i32::from(dx),
        dy: 0,
    }
}

/// The pixel, and the one to the right of it.
fn composite(alloc: Global) -> Mem<CompositeKey>
    ensures { IfOk result (IsValidComposite []) }
{
    let mut parts = Items::new(alloc);
    parts.push(moved(0))?;
    parts.push(moved(1))?;
    Ok(CompositeKey { parts })
}

/// What the value of a copy of the key costs.
fn cost_of(alloc: Global, key: &WorldKey) -> Mem<u64>
    requires { IsValidWorldKey [] key.now }
{
    let fonts = FontSet {
        fonts: Items::new(alloc),
    };
    let copy = WorldMade::copy(alloc, key)?;
    let value = made_value(alloc, &fonts, &copy)?;
    Ok(WorldMade::cost(&value))
}

/// What the value of a key costs, and behind the shards of how many kinds its shard is.
fn told(alloc: Global, key: WorldKey) -> Mem<(u64, usize)>
    requires { IsValidWorldKey [] key }
{
    Ok((cost_of(alloc, &key)?, world_shard(&key) / 4))
}

fn all_told(alloc: Global) -> Mem<[(u64, usize); 3]> {
    let region = told(alloc, region_key())?;
    let mask = told(alloc, WorldKey::Mask(mask()))?;
    let composite = told(alloc, WorldKey::Composite(composite(alloc)?))?;
    Ok([region, mask, composite])
}

/// Prints what a key of each kind costs, the kinds of shards, and the first shard of masks.
pub fn show(rt: &HostRuntime) -> Result<(), Fail> {
    let told = all_told(rt.alloc())?;
    let first = first_shard(ValueKind::Mask);
    println!(rt; "costs and kinds of shards: {told:?}, first shard of masks: {first}")?;
    Ok(())
}
