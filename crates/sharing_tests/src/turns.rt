//! A list that stores its history, on one thread and on two.
ghost use Rattle.std.specs.Prelude.{◌≡◌, ◌≤◌, [], map, IsSomeAnd};
ghost use Rattle.turn_cell.specs.Passes.{IsOf};

use crate::rows::are_in_turn;
use std::alloc::Global;
use std::sync::Wait;
use std::test::Fail;
use std::thread::{Threads, join_mut};
use turn_cell::{Book, Pass, TurnCell};

/// The entries that were given, in order.
#[derive(Drop)]
struct Entries {
    all: Vec<u32>,
}

impl Book for Entries {
    type Entry = u32;

    type Tag = ();

    ghost stands = { λ _ entries history. entries.all.items ≡ map (λ pair. pair.1) history };
}

/// A pass that is lent to a thread, and its number.
struct Worker {
    pass: Option<Pass<Entries>>,
    number: u32,
}

/// Appends an entry. Where memory runs out the list stays as it was.
fn push<R: Wait>(rt: &R, cell: &TurnCell<Entries>, pass: Pass<Entries>, entry: u32) -> Pass<Entries>
    requires { IsOf cell.now pass }
    ensures cell { IsOf cell.now result }
    ensures number { result.number ≡ pass.number }
{
    let mut turn = cell.take(rt, pass);
    if turn.value_mut().all.push(entry).is_ok() {
        cell.give(turn, Some(entry))
    } else {
        cell.give(turn, None)
    }
}

/// Appends a thousand entries, from `number` times a thousand on.
fn push_thousand<R: Wait>(
    rt: &R,
    cell: &TurnCell<Entries>,
    pass: Pass<Entries>,
    number: u32,
) -> Pass<Entries>
    requires cell { IsOf cell.now pass }
    requires number { number ≤ 1 }
    ensures cell { IsOf cell.now result }
    ensures number { result.number ≡ pass.number }
{
    let mut mine = pass;
    for i in 0..1000u32 {
        mine = push(rt, cell, mine, 1000 * number + i);
    }
    mine
}

fn work<R: Wait>(rt: &R, cell: &TurnCell<Entries>, worker: &mut Worker)
    requires pass { IsSomeAnd worker.old.pass (λ p. IsOf cell.now p × (p.number ≡ worker.old.number)) }
    requires number { worker.old.number ≤ 1 }
    ensures pass { IsSomeAnd worker.new.pass (λ p. IsOf cell.now p × (p.number ≡ worker.old.number)) }
{
    let Some(pass) = worker.pass.take() else {
        unreachable!()
    };
    let pass = push_thousand(rt, cell, pass, worker.number);
    let before = worker.pass.replace(pass);
    let None = before else { unreachable!() };
}

/// Two workers append at once. The second pass is joined into the first.
fn work_both<R: Threads + Wait + Sync>(
    rt: &R,
    cell: &TurnCell<Entries>,
    first: Pass<Entries>,
    second: Pass<Entries>,
) -> Pass<Entries>
    requires cells { IsOf cell.now first × IsOf cell.now second }
    requires numbers { (first.number ≡ 0) × (second.number ≡ 1) }
    ensures cell { IsOf cell.now result }
    ensures number { result.number ≡ 0 }
{
    let mut left = Worker {
        pass: Some(first),
        number: 0,
    };
    let mut right = Worker {
        pass: Some(second),
        number: 1,
    };
    join_mut(
        rt,
        &mut || work(rt, cell, &mut left),
        &mut || work(rt, cell, &mut right),
    );
    let Worker {
        pass: first,
        number: _,
    } = left;
    let Worker {
        pass: second,
        number: _,
    } = right;
    let Some(first) = first else { unreachable!() };
    let Some(second) = second else { unreachable!() };
    cell.join(first, second)
}

/// What one thread sees: the first pass has the turn while the second tries, then the second takes it.
#[derive(Drop)]
struct Seen {
    holder: u32,
    was_out: bool,
    next_holder: u32,
    was_empty: bool,
}

fn take_in_turn<R: Wait>(
    rt: &R,
    cell: &TurnCell<Entries>,
    first: Pass<Entries>,
    second: Pass<Entries>,
) -> (Pass<Entries>, Seen)
    requires cells { IsOf cell.now first × IsOf cell.now second }
    requires number { first.number ≡ 0 }
    ensures cell { IsOf cell.now result.0 }
    ensures number { result.0.number ≡ 0 }
{
    let turn = cell.take(rt, first);
    let holder = turn.number();
    let (was_out, second) = match cell.try_take(second) {
        Ok(turn) => (false, cell.give(turn, None)),
        Err(second) => (true, second),
    };
    let first = cell.give(turn, None);
    let (next_holder, was_empty, second) = match cell.try_take(second) {
        Ok(turn) => (
            turn.number(),
            turn.value().all.is_empty(),
            cell.give(turn, None),
        ),
        Err(second) => (9, false, second),
    };
    let seen = Seen {
        holder,
        was_out,
        next_holder,
        was_empty,
    };
    let first = push(rt, cell, first, 7);
    let second = push(rt, cell, second, 8);
    (cell.join(first, second), seen)
}

fn empty(alloc: Global) -> Entries
    ensures { result.all.items ≡ [] }
{
    Entries {
        all: Vec::new(alloc),
    }
}

#[test]
fn one_thread_takes_in_turn(rt: HostRuntime) -> Result<(), Fail> {
    let opened = TurnCell::open(rt.alloc(), (), empty(rt.alloc()));
    let Ok((cell, pass)) = opened else {
        panic!(rt; "memory")
    };
    let (first, second) = match cell.split(pass) {
        Ok(two) => two,
        Err(pass) => {
            cell.close(pass);
            panic!(rt; "numbers")
        }
    };
    let (pass, seen) = take_in_turn(&rt, &cell, first, second);
    let closed = cell.close(pass);
    assert_eq!(rt; (seen.holder, seen.next_holder), (0, 1));
    assert!(rt; seen.was_out && seen.was_empty);
    let Some(entries) = closed else {
        panic!(rt; "the turn is out")
    };
    assert_eq!(rt; entries.all.as_slice(), [7, 8].as_slice());
    Ok(())
}

#[test]
fn two_threads_give_a_thousand_each(rt: HostRuntime) -> Result<(), Fail> {
    let opened = TurnCell::open(rt.alloc(), (), empty(rt.alloc()));
    let Ok((cell, pass)) = opened else {
        panic!(rt; "memory")
    };
    let (first, second) = match cell.split(pass) {
        Ok(two) => two,
        Err(pass) => {
            cell.close(pass);
            panic!(rt; "numbers")
        }
    };
    let pass = work_both(&rt, &cell, first, second);
    let closed = cell.close(pass);
    let Some(entries) = closed else {
        panic!(rt; "the turn is out")
    };
    assert_eq!(rt; entries.all.len(), 2000);
    assert!(rt; are_in_turn(entries.all.as_slice()));
    Ok(())
}
