//! Which keys threads visit, and in which order.

use ass_num::Mem;
use std::alloc::Global;

/// The keys of shard n begin with n times this, and so many are in a shard before the next one's.
pub const SHARD_KEYS: u32 = 65_536;

/// The numbers of a series that seems random.
const FACTOR: u32 = 1_664_525;

const ADDEND: u32 = 1_013_904_223;

/// The keys of four threads.
#[derive(Drop)]
pub struct Keys {
    pub first: Vec<u32>,
    pub second: Vec<u32>,
    pub third: Vec<u32>,
    pub fourth: Vec<u32>,
}

/// So many keys of a shard, from its first one on.
pub fn keys_of_shard(alloc: Global, shard: u32, count: u32) -> Mem<Vec<u32>> {
    let first = shard.wrapping_mul(SHARD_KEYS);
    let mut keys = Vec::new(alloc);
    for i in 0..count {
        keys.push(first.wrapping_add(i))?;
    }
    Ok(keys)
}

/// So many keys of all four shards, drawn from the numbers of one thread as a series that seems random says.
fn mixed_keys(alloc: Global, thread: u32, count: u32) -> Mem<Vec<u32>> {
    let mut keys = Vec::new(alloc);
    let mut drawn = thread;
    for _ in 0..count {
        drawn = drawn.wrapping_mul(FACTOR).wrapping_add(ADDEND);
        let place = (drawn >> 16) % count.max(1);
        let number = thread.wrapping_mul(count).wrapping_add(place);
        let first = (number % 4).wrapping_mul(SHARD_KEYS);
        keys.push(first.wrapping_add(number / 4))?;
    }
    Ok(keys)
}

/// Each thread has so many keys of a shard of its own.
pub fn keys_apart(alloc: Global, count: u32) -> Mem<Keys> {
    Ok(Keys {
        first: keys_of_shard(alloc, 0, count)?,
        second: keys_of_shard(alloc, 1, count)?,
        third: keys_of_shard(alloc, 2, count)?,
        fourth: keys_of_shard(alloc, 3, count)?,
    })
}

/// Each thread has so many keys of its own, and those of all threads are in all shards.
pub fn keys_mixed(alloc: Global, count: u32) -> Mem<Keys> {
    Ok(Keys {
        first: mixed_keys(alloc, 0, count)?,
        second: mixed_keys(alloc, 1, count)?,
        third: mixed_keys(alloc, 2, count)?,
        fourth: mixed_keys(alloc, 3, count)?,
    })
}
