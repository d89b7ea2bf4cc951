//! What threads make of a key that several want at once. Each wait has a bound.
ghost use Rattle.std.specs.Prelude.{◌==◌, IsSomeAnd};
ghost use Rattle.flight_cache.specs.Shards.{GivesBack};
ghost use Rattle.cache_bench.specs.Doubled.{IsFreePass, doubled};

use crate::orders::{Keys, SHARD_KEYS, keys_of_shard};
use crate::visits::Doubled;
use crate::workers::{Worker, lend, lend_four, rejoin, rejoin_four, work, work_by_four};
use ass_num::Mem;
use crossbeam_utils::Backoff;
use evict_core::Totals;
use flight_cache::{Asked, Cache, CachePass};
use std::alloc::Global;
use std::sync::Wait;
use std::sync::atomic::{AtomicBool, Ordering};
use std::thread::{Threads, join_mut};

/// A thread looks so often whether another has got so far.
const LOOKS: u32 = 100_000_000;

const ENTRIES: u32 = 64;

const BUDGET: u64 = 4_000;

fn await_flag(flag: &AtomicBool) {
    let backoff = Backoff::new();
    for _ in 0..LOOKS {
        if flag.load(Ordering::Acquire) {
            break;
        }
        backoff.snooze();
    }
}

fn pause() {
    let backoff = Backoff::new();
    for _ in 0..1000 {
        backoff.snooze();
    }
}

/// What two threads tell one another: the first has claimed the key, and the second is about to ask for it.
#[derive(Drop)]
struct Flags {
    claimed: AtomicBool,
    asking: AtomicBool,
}

/// Claims the key, and fails to make it once the other thread has asked for it a while.
fn claim_and_fail<R: Wait>(
    rt: &R,
    alloc: Global,
    cache: &Cache<Doubled>,
    pass: CachePass<Doubled>,
    key: u32,
    flags: &Flags,
) -> CachePass<Doubled>
    requires { IsFreePass cache.now pass }
    ensures { GivesBack (◌==◌) doubled cache.now pass result }
{
    let (pass, asked) = cache.ask(rt, alloc, pass, &key);
    match asked {
        Asked::Hit(pin) => cache.unpin(rt, pass, pin),
        Asked::Make(duty) => match duty {
            Some(ticket) => {
                flags.claimed.store(true, Ordering::Release);
                await_flag(&flags.asking);
                pause();
                cache.fail(rt, pass, ticket)
            }
            None => pass,
        },
        Asked::OutOfMemory => pass,
    }
}

fn fail_first<R: Wait>(
    rt: &R,
    alloc: Global,
    cache: &Cache<Doubled>,
    worker: &mut Worker,
    key: u32,
    flags: &Flags,
)
    requires { IsSomeAnd worker.old.pass (IsFreePass cache.now) }
    ensures { IsSomeAnd worker.new.pass (IsFreePass cache.now) }
{
    let Some(pass) = worker.pass.take() else {
        unreachable!()
    };
    let pass = claim_and_fail(rt, alloc, cache, pass, key, flags);
    let before = worker.pass.replace(pass);
    let None = before else { unreachable!() };
}

/// Waits until the key is claimed, and visits it then.
fn visit_claimed<R: Wait>(
    rt: &R,
    alloc: Global,
    cache: &Cache<Doubled>,
    worker: &mut Worker,
    keys: &Vec<u32>,
    flags: &Flags,
)
    requires { IsSomeAnd worker.old.pass (IsFreePass cache.now) }
    ensures { IsSomeAnd worker.new.pass (IsFreePass cache.now) }
{
    await_flag(&flags.claimed);
    flags.asking.store(true, Ordering::Release);
    work(rt, alloc, cache, worker, keys, 1);
}

/// One thread claims a key and fails to make it while another waits for it: how many visits of the other found a value, and the counts.
pub fn fail_before_another<R: Wait + Threads + Sync>(rt: &R, alloc: Global) -> Mem<(u32, Totals)> {
    let keys = keys_of_shard(alloc, 3, 1)?;
    let (cache, pass) = Cache::open(alloc, (), ENTRIES, BUDGET)?;
    let (pass, mut left) = lend(&cache, pass);
    let (pass, mut right) = lend(&cache, pass);
    let flags = Flags {
        claimed: AtomicBool::new(false),
        asking: AtomicBool::new(false),
    };
    join_mut(
        rt,
        &mut || fail_first(rt, alloc, &cache, &mut left, 3 * SHARD_KEYS, &flags),
        &mut || visit_claimed(rt, alloc, &cache, &mut right, &keys, &flags),
    );
    let (pass, _) = rejoin(&cache, pass, left);
    let (pass, found) = rejoin(&cache, pass, right);
    let (pass, totals) = cache.totals(rt, pass);
    cache.close(pass);
    Ok((found, totals))
}

/// The same key for each of four threads.
fn one_key(alloc: Global) -> Mem<Keys> {
    Ok(Keys {
        first: keys_of_shard(alloc, 2, 1)?,
        second: keys_of_shard(alloc, 2, 1)?,
        third: keys_of_shard(alloc, 2, 1)?,
        fourth: keys_of_shard(alloc, 2, 1)?,
    })
}

/// Four threads visit one key: how many found a value, and the counts.
pub fn visit_one_key<R: Wait + Threads + Sync>(rt: &R, alloc: Global) -> Mem<(u32, Totals)> {
    let keys = one_key(alloc)?;
    let (cache, pass) = Cache::open(alloc, (), ENTRIES, BUDGET)?;
    let (pass, mut four) = lend_four(&cache, pass);
    work_by_four(rt, alloc, &cache, &mut four, &keys, 1);
    let (pass, found) = rejoin_four(&cache, pass, four);
    let (pass, totals) = cache.totals(rt, pass);
    cache.close(pass);
    Ok((found, totals))
}
