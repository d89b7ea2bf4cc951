//! Measures visits of a shared cache: an ask, mostly a hit, and the pin given back. Without words it lets threads visit a few keys, and
//! want one key at once, and prints the counts. With the words `KEYS ROUNDS` it prints how long a visit takes one thread, and what four
//! threads do at once, each of which visits so many keys of its own in so many rounds.
#![tactic(auto)]

mod contests;
mod orders;
mod stop;
mod visits;
mod workers;

ghost use Rattle.std.specs.Prelude.{IsSomeAnd};
ghost use Rattle.cache_bench.specs.Doubled.{IsFreePass};

use ass_num::Mem;
use contests::{fail_before_another, visit_one_key};
use evict_core::Totals;
use flight_cache::Cache;
use orders::{Keys, keys_apart, keys_mixed};
use std::alloc::Global;
use std::sync::Wait;
use std::thread::Threads;
use std::time::{Clock, Duration, Instant};
use std::{env, io};
use stop::Stop;
use visits::Doubled;
use workers::{Worker, lend, lend_four, rejoin, rejoin_four, work, work_by_four};

/// So many entries that no shard is full.
const ENTRIES: u32 = 65_536;

/// Each entry costs 21, so none is evicted.
const BUDGET: u64 = 10_000_000;

/// So often a time is taken. The least one counts.
const LAPS: u32 = 200;

/// What a run came to: the least time that one thread took for all visits, that four threads took for them, how many of
/// their last visits found a value, and the counts.
#[derive(Drop)]
struct Outcome {
    one: Duration,
    four: Duration,
    found: u32,
    totals: Totals,
}

/// All four threads' visits, by one.
fn visit_all<R: Wait>(
    rt: &R,
    alloc: Global,
    cache: &Cache<Doubled>,
    worker: &mut Worker,
    keys: &Keys,
    rounds: u32,
)
    requires { IsSomeAnd worker.old.pass (IsFreePass cache.now) }
    ensures { IsSomeAnd worker.new.pass (IsFreePass cache.now) }
{
    work(rt, alloc, cache, worker, &keys.first, rounds);
    work(rt, alloc, cache, worker, &keys.second, rounds);
    work(rt, alloc, cache, worker, &keys.third, rounds);
    work(rt, alloc, cache, worker, &keys.fourth, rounds);
}

fn since<R: Clock>(rt: &R, began: io::Result<Instant>) -> Duration {
    match began {
        Ok(began) => match began.elapsed(rt) {
            Ok(spent) => spent,
            Err(_) => Duration::MAX,
        },
        Err(_) => Duration::MAX,
    }
}

/// Fills a cache with these keys, and times visits of all of them so often.
fn run_threads<R: Wait + Threads + Sync + Clock>(
    rt: &R,
    alloc: Global,
    keys: &Keys,
    rounds: u32,
    laps: u32,
) -> Mem<Outcome> {
    let (cache, pass) = Cache::open(alloc, (), ENTRIES, BUDGET)?;
    let (pass, mut four) = lend_four(&cache, pass);
    let (pass, mut one) = lend(&cache, pass);
    visit_all(rt, alloc, &cache, &mut one, keys, 1);
    let mut by_one = Duration::MAX;
    let mut by_four = Duration::MAX;
    for _ in 0..laps {
        let began = Instant::now(rt);
        visit_all(rt, alloc, &cache, &mut one, keys, rounds);
        by_one = by_one.min(since(rt, began));
        let began = Instant::now(rt);
        work_by_four(rt, alloc, &cache, &mut four, keys, rounds);
        by_four = by_four.min(since(rt, began));
    }
    let (pass, _) = rejoin(&cache, pass, one);
    let (pass, found) = rejoin_four(&cache, pass, four);
    let (pass, totals) = cache.totals(rt, pass);
    cache.close(pass);
    Ok(Outcome {
        one: by_one,
        four: by_four,
        found,
        totals,
    })
}

/// Prints how many visits found a value, and what the cache counted.
fn show_totals<R: Print>(rt: &R, name: &str, found: u32, totals: &Totals) -> Result<(), Stop> {
    let counts = totals.counts;
    let steps = [counts.claims, counts.fills, counts.fails, counts.hits];
    let now = [u64::from(totals.entries), totals.pinned, totals.unpinned];
    println!(rt;
        "{name}: {found} found; claims, fills, fails, hits: {steps:?}; entries, pinned, unpinned: {now:?}"
    )?;
    Ok(())
}

/// Prints what threads make of a few keys.
fn show_counts<R: Wait + Threads + Sync + Clock + Print>(
    rt: &R,
    alloc: Global,
) -> Result<(), Stop> {
    let outcome = run_threads(rt, alloc, &keys_apart(alloc, 10)?, 10, 1)?;
    show_totals(rt, "four threads", outcome.found, &outcome.totals)?;
    let (found, totals) = fail_before_another(rt, alloc)?;
    show_totals(rt, "behind a failed making", found, &totals)?;
    let (found, totals) = visit_one_key(rt, alloc)?;
    show_totals(rt, "four threads for one key", found, &totals)
}

fn show_times<R: Wait + Threads + Sync + Clock + Print>(
    rt: &R,
    alloc: Global,
    name: &str,
    keys: &Keys,
    count: u32,
    rounds: u32,
) -> Result<(), Stop> {
    let outcome = run_threads(rt, alloc, keys, rounds, LAPS)?;
    let all = (4 * u128::from(count)).max(1);
    let visits = (all * u128::from(rounds)).max(1);
    let one = outcome.one.as_nanos();
    let four = outcome.four.as_nanos().max(1);
    let times = 100 * one / four;
    println!(rt;
        "{name}: {} ns a visit by one thread; by four at once {}.{:02} times as many visits",
        one / visits,
        times / 100,
        times % 100
    )?;
    Ok(())
}

fn number_of(word: &String) -> Result<u32, Stop> {
    match word.as_str().parse::<u32>() {
        Ok(number) => Ok(number),
        Err(_) => Err(Stop::UnknownWords),
    }
}

fn measure<R: Wait + Threads + Sync + Clock + Print>(
    rt: &R,
    alloc: Global,
    count: u32,
    rounds: u32,
) -> Result<(), Stop> {
    let apart = keys_apart(alloc, count)?;
    show_times(rt, alloc, "a shard for each thread", &apart, count, rounds)?;
    let mixed = keys_mixed(alloc, count)?;
    show_times(rt, alloc, "keys in all shards", &mixed, count, rounds)
}

/// The words after the program's name.
fn words_of(rt: &HostRuntime) -> io::Result<Vec<String>> {
    let mut words = Vec::new(rt.alloc());
    for word in env::args(rt)?.skip(1) {
        words.push(word)?;
    }
    Ok(words)
}

fn main(rt: HostRuntime) -> Result<(), Stop> {
    let words = words_of(&rt)?;
    match words.as_slice() {
        [] => show_counts(&rt, rt.alloc()),
        [count, rounds] => measure(&rt, rt.alloc(), number_of(count)?, number_of(rounds)?),
        _ => Err(Stop::UnknownWords),
    }
}
