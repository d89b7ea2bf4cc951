//! Passes of a track on several threads: two feed while a third looks, and tries to look.
ghost use Rattle.std.specs.Prelude.{◌≡◌, ◌+◌, ◌<◌, IsSomeAnd};
ghost use Rattle.turn_cell.specs.Passes.{IsOf};

use crate::rows::are_in_turn;
use std::sync::Wait;
use std::test::Fail;
use std::thread::{Threads, join_mut};
use track_history::{Feed, LookRefusal, Track, TrackPass};

/// A pass that is lent to a thread, the thread's number, and how many times its calls did what they should.
struct Worker {
    pass: Option<TrackPass>,
    number: u32,
    done: u32,
}

/// Offers an event that is shown for ten milliseconds.
fn offer<R: Wait + AllocGlobal>(
    rt: &R,
    track: &Track,
    pass: TrackPass,
    order: u32,
    start: i64,
) -> (TrackPass, Feed)
    requires { IsOf track.now pass }
    ensures { IsOf track.now result.0 × (result.0.number ≡ pass.number) }
{
    let Ok(chunk) = format!(in rt.alloc(); "{order},0,D,,0,0,0,,x") else {
        return (pass, Feed::OutOfMemory);
    };
    let bytes = chunk.as_str().as_bytes();
    if bytes.len() > 100 {
        return (pass, Feed::OutOfMemory);
    }
    track.feed(rt, rt.alloc(), pass, bytes, start, 10)
}

/// Feeds a thousand events, from ReadOrder `number` times a thousand on, and answers how many were accepted.
fn feed_thousand<R: Wait + AllocGlobal>(
    rt: &R,
    track: &Track,
    pass: TrackPass,
    number: u32,
) -> (TrackPass, u32)
    requires { IsOf track.now pass }
    ensures { IsOf track.now result.0 }
{
    let mut mine = pass;
    let mut accepted = 0u32;
    for i in 0..1000u32 {
        let order = number.wrapping_mul(1000).wrapping_add(i);
        let (next, answer) = offer(rt, track, mine, order, i64::from(i) * 10);
        mine = next;
        if let Feed::Accepted(_) = answer {
            accepted = accepted.wrapping_add(1);
        }
    }
    (mine, accepted)
}

/// Tries to look, and tells how many entries there are; as many as before where another pass has the turn.
fn tried<R: AllocGlobal>(
    rt: &R,
    track: &Track,
    pass: TrackPass,
    before: usize,
) -> (TrackPass, usize)
    requires { IsOf track.now pass }
    ensures { IsOf track.now result.0 }
{
    let (pass, scene) = track.try_look(rt.alloc(), pass, 5);
    match scene {
        Ok(scene) => (pass, scene.n),
        Err(LookRefusal::TurnOut) => (pass, before),
        Err(_) => (pass, 0),
    }
}

/// Looks a hundred times, and tries as often; answers how often there were as many entries as before, or more.
fn look_hundred<R: Wait + AllocGlobal>(rt: &R, track: &Track, pass: TrackPass) -> (TrackPass, u32)
    requires { IsOf track.now pass }
    ensures { IsOf track.now result.0 }
{
    let mut mine = pass;
    let mut before = 0usize;
    let mut grown = 0u32;
    for i in 0..100u32 {
        let (next, scene) = track.look(rt, rt.alloc(), mine, i64::from(i) * 100);
        mine = next;
        if let Ok(scene) = scene {
            let (next, n) = tried(rt, track, mine, scene.n);
            mine = next;
            if before <= scene.n && scene.n <= n {
                grown = grown.wrapping_add(1);
            }
            before = n;
        }
    }
    (mine, grown)
}

/// A new pass for the thread of this number.
fn lend(track: &Track, pass: TrackPass, number: u32) -> (TrackPass, Worker)
    requires first { IsOf track.now pass × (pass.number ≡ 0) }
    requires room { pass.next < u32.MAX }
    ensures first { IsOf track.now result.0 × (result.0.number ≡ 0) }
    ensures next { result.0.next ≡ pass.next + 1 }
    ensures lent { IsSomeAnd result.1.pass (λ p. IsOf track.now p) }
{
    match track.split(pass) {
        Ok((first, new)) => {
            let worker = Worker {
                pass: Some(new),
                number,
                done: 0,
            };
            (first, worker)
        }
        Err(_pass) => unreachable!(),
    }
}

/// Takes a thread's pass in again, and tells how many times its calls did what they should.
fn rejoin(track: &Track, pass: TrackPass, worker: Worker) -> (TrackPass, u32)
    requires first { IsOf track.now pass × (pass.number ≡ 0) }
    requires lent { IsSomeAnd worker.pass (λ p. IsOf track.now p) }
    ensures { IsOf track.now result.0 × (result.0.number ≡ 0) }
{
    let Worker {
        pass: other,
        number: _,
        done,
    } = worker;
    let Some(other) = other else { unreachable!() };
    (track.join(pass, other), done)
}

/// Feeds by the threads of numbers 0 and 1, looks by that of number 2.
fn work<R: Wait + AllocGlobal>(rt: &R, track: &Track, worker: &mut Worker)
    requires { IsSomeAnd worker.old.pass (λ p. IsOf track.now p) }
    ensures { IsSomeAnd worker.new.pass (λ p. IsOf track.now p) }
{
    let Some(pass) = worker.pass.take() else {
        unreachable!()
    };
    let (pass, done) = if worker.number == 2 {
        look_hundred(rt, track, pass)
    } else {
        feed_thousand(rt, track, pass, worker.number)
    };
    worker.done = done;
    let before = worker.pass.replace(pass);
    let None = before else { unreachable!() };
}

/// Two threads at once.
fn work_by_two<R: Threads + Wait + AllocGlobal + Sync>(
    rt: &R,
    track: &Track,
    left: &mut Worker,
    right: &mut Worker,
)
    requires left { IsSomeAnd left.old.pass (λ p. IsOf track.now p) }
    requires right { IsSomeAnd right.old.pass (λ p. IsOf track.now p) }
    ensures left { IsSomeAnd left.new.pass (λ p. IsOf track.now p) }
    ensures right { IsSomeAnd right.new.pass (λ p. IsOf track.now p) }
{
    join_mut(
        rt,
        &mut || work(rt, track, left),
        &mut || work(rt, track, right),
    );
}

/// Two threads beside a third one.
fn work_by_three<R: Threads + Wait + AllocGlobal + Sync>(
    rt: &R,
    track: &Track,
    left: &mut Worker,
    right: &mut Worker,
    third: &mut Worker,
)
    requires left { IsSomeAnd left.old.pass (λ p. IsOf track.now p) }
    requires right { IsSomeAnd right.old.pass (λ p. IsOf track.now p) }
    requires third { IsSomeAnd third.old.pass (λ p. IsOf track.now p) }
    ensures left { IsSomeAnd left.new.pass (λ p. IsOf track.now p) }
    ensures right { IsSomeAnd right.new.pass (λ p. IsOf track.now p) }
    ensures third { IsSomeAnd third.new.pass (λ p. IsOf track.now p) }
{
    join_mut(
        rt,
        &mut ||
            requires one { IsSomeAnd left.now.pass (λ p. IsOf track.now p) }
            requires other { IsSomeAnd right.now.pass (λ p. IsOf track.now p) }
        { work_by_two(rt, track, left, right) },
        &mut || work(rt, track, third),
    );
}

/// Feeds by two threads beside one that looks, and tells how many times the calls of each did what they should.
fn feed_and_look<R: Threads + Wait + AllocGlobal + Sync>(
    rt: &R,
    track: &Track,
    pass: TrackPass,
) -> (TrackPass, [u32; 3])
    requires first { IsOf track.now pass × (pass.number ≡ 0) }
    requires room { pass.next ≡ 1 }
    ensures { IsOf track.now result.0 × (result.0.number ≡ 0) }
{
    let (pass, mut left) = lend(track, pass, 0);
    let (pass, mut right) = lend(track, pass, 1);
    let (pass, mut looker) = lend(track, pass, 2);
    work_by_three(rt, track, &mut left, &mut right, &mut looker);
    let (pass, fed) = rejoin(track, pass, left);
    let (pass, also_fed) = rejoin(track, pass, right);
    let (pass, looked) = rejoin(track, pass, looker);
    (pass, [fed, also_fed, looked])
}

#[test]
fn two_threads_feed_beside_one_that_looks(rt: HostRuntime) -> Result<(), Fail> {
    let opened = Track::open(rt.alloc());
    let Ok((track, pass)) = opened else {
        panic!(rt; "memory")
    };
    let (pass, done) = feed_and_look(&rt, &track, pass);
    let (pass, orders) = track.orders(&rt, rt.alloc(), pass);
    track.close(pass);
    let Ok(orders) = orders else {
        panic!(rt; "memory")
    };
    assert_eq!(rt; done, [1000, 1000, 100]);
    assert_eq!(rt; orders.len(), 2000);
    assert!(rt; are_in_turn(orders.as_slice()));
    Ok(())
}
