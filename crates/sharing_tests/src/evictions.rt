//! The worked rows of calls.
ghost use Rattle.std.specs.Prelude.{◌≤◌};
ghost use Rattle.evict_core.specs.Machine.{max_cost};

use crate::rows::{add_other, call_of, name_of, numbers, shown};
use ass_num::Mem;
use evict_core::{Ask, Entries, Freed, HardLimit};
use std::alloc::Global;
use std::sync::Arc;
use std::test::Fail;

/// What a call comes to. An ask claims what it may.
#[derive(Clone, Copy, Debug)]
enum Reply {
    Hit(u32),
    Claim,
    Flying(u32),
    Crowded,
    OutOfMemory,
    Done,
    Refused,
}

fn reply_of(answer: Ask<u32>) -> Reply {
    match answer {
        Ask::Hit(value) => Reply::Hit(*value),
        Ask::Claimable => Reply::Claim,
        Ask::Flying(number) => Reply::Flying(number),
        Ask::Crowded => Reply::Crowded,
        Ask::OutOfMemory => Reply::OutOfMemory,
    }
}

fn ask(entries: &mut Entries<u32, u32>, key: u32) -> Reply {
    match entries.ask(&key) {
        Ask::Claimable => match entries.claim(key, 7, &mut Freed::few()) {
            Ok(()) => Reply::Claim,
            Err(_) => Reply::OutOfMemory,
        },
        answer => reply_of(answer),
    }
}

/// The value of a key is its number and ten thousand more.
fn fill(alloc: Global, entries: &mut Entries<u32, u32>, key: u32, cost: u64) -> Reply
    requires { cost ≤ max_cost }
{
    let Ok(value) = Arc::new(alloc, key.wrapping_add(10_000)) else {
        return Reply::OutOfMemory;
    };
    match entries.maker_of(&key) {
        Some(_) => {
            entries.fill(&key, value, cost);
            Reply::Done
        }
        None => Reply::Refused,
    }
}

fn fail(entries: &mut Entries<u32, u32>, key: u32) -> Reply {
    match entries.maker_of(&key) {
        Some(_) => {
            entries.fail(&key, &mut Freed::few());
            Reply::Done
        }
        None => Reply::Refused,
    }
}

fn pin(entries: &mut Entries<u32, u32>, key: u32) -> Reply {
    match entries.pins_of(&key) {
        Some(pins) => {
            if pins < u32::MAX {
                entries.pin(&key);
                return Reply::Done;
            }
            Reply::Refused
        }
        None => Reply::Refused,
    }
}

fn unpin(entries: &mut Entries<u32, u32>, key: u32) -> Reply {
    match entries.pins_of(&key) {
        Some(pins) => {
            if pins > 0 {
                entries.unpin(&key, &mut Freed::few());
                return Reply::Done;
            }
            Reply::Refused
        }
        None => Reply::Refused,
    }
}

/// Makes a call. A fill or a fail is made where the key is being made.
fn make(
    alloc: Global,
    entries: &mut Entries<u32, u32>,
    name: &str,
    key: u32,
    number: u64,
) -> Reply {
    match name {
        "ask" => ask(entries, key),
        "fill" => fill(alloc, entries, key, number.min(1 << 32)),
        "fail" => fail(entries, key),
        "pin" => pin(entries, key),
        "unpin" => unpin(entries, key),
        _ => {
            let limit = key.clamp(1, 65_536);
            entries.set_limits(limit, number.min(1 << 40), &mut Freed::few());
            Reply::Done
        }
    }
}

/// Calls, with a key or two limits and a cost; and what each comes to, with the count of entries and the unpinned cost
/// then. One pin holds a key: nobody may evict it. 65 is within 100, and isn't within 100 twice. Then two of 65 where 65
/// is the budget: the less recent one goes. Then a smaller limit of entries: what is pinned stays above it, and nothing
/// comes in. At last a hit makes an entry the most recent.
const ROWS: &str = "limits 1 100 = (Done, 0, 0)
ask 1 = (Claim, 1, 0)
ask 1 = (Flying(7), 1, 0)
ask 2 = (Crowded, 1, 0)
fill 1 65 = (Done, 1, 0)
pin 1 = (Done, 1, 0)
unpin 1 = (Done, 1, 0)
unpin 1 = (Done, 1, 65)
unpin 1 = (Refused, 1, 65)
ask 2 = (Claim, 1, 0)
pin 1 = (Refused, 1, 0)
fail 2 = (Done, 0, 0)
ask 2 = (Claim, 1, 0)
fail 2 = (Done, 0, 0)
limits 2 65 = (Done, 0, 0)
ask 1 = (Claim, 1, 0)
fill 1 65 = (Done, 1, 0)
ask 2 = (Claim, 2, 0)
fill 2 65 = (Done, 2, 0)
unpin 1 = (Done, 2, 65)
unpin 2 = (Done, 1, 65)
ask 2 = (Hit(10002), 1, 0)
limits 2 0 = (Done, 1, 0)
unpin 2 = (Done, 0, 0)
limits 2 1000 = (Done, 0, 0)
ask 1 = (Claim, 1, 0)
fill 1 65 = (Done, 1, 0)
ask 2 = (Claim, 2, 0)
fill 2 65 = (Done, 2, 0)
unpin 1 = (Done, 2, 65)
limits 1 1000 = (Done, 1, 0)
ask 3 = (Crowded, 1, 0)
unpin 2 = (Done, 1, 65)
ask 3 = (Claim, 1, 0)
fill 3 65 = (Done, 1, 0)
unpin 3 = (Done, 1, 65)
limits 2 1000 = (Done, 1, 65)
ask 1 = (Claim, 2, 65)
fill 1 1 = (Done, 2, 65)
unpin 1 = (Done, 2, 66)
ask 3 = (Hit(10003), 2, 1)
unpin 3 = (Done, 2, 66)
limits 1 1000 = (Done, 1, 65)
ask 3 = (Hit(10003), 1, 0)
ask 1 = (Crowded, 1, 0)";

/// Makes the call of a row.
fn make_row(
    alloc: Global,
    entries: &mut Entries<u32, u32>,
    row: &str,
    others: &mut String,
) -> Mem<()> {
    let call = call_of(row);
    let [key, number, _, _] = numbers(call);
    let reply = make(alloc, entries, name_of(call), key, u64::from(number));
    let totals = entries.totals();
    let found = shown(alloc, &(reply, totals.entries, totals.unpinned))?;
    add_other(others, row, found.as_str())
}

/// Makes the calls of rows, and tells what comes to something else than its row says.
fn make_rows(alloc: Global, entries: &mut Entries<u32, u32>) -> Mem<String> {
    let mut others = String::new(alloc);
    for row in ROWS.lines() {
        make_row(alloc, entries, row, &mut others)?;
    }
    Ok(others)
}

fn value_of(entries: &Entries<u32, u32>, key: u32) -> Option<u32> {
    match entries.value_of(&key) {
        Ok(Some(value)) => Some(*value),
        _ => None,
    }
}

#[test]
fn rows_of_calls(rt: HostRuntime) -> Result<(), Fail> {
    let mut entries: Entries<u32, u32> = Entries::open(rt.alloc(), 2, 100)?;
    let others = make_rows(rt.alloc(), &mut entries)?;
    assert_eq!(rt; others.as_str(), "");
    let evictions = entries.totals().counts.evictions;
    let last = (evictions, entries.pins_of(&3), value_of(&entries, 3));
    assert_eq!(rt; last, (6, Some(1), Some(10_003)));
    Ok(())
}

fn is_claim(reply: Reply) -> bool {
    match reply {
        Reply::Claim => true,
        _ => false,
    }
}

#[test]
fn hard_limit(rt: HostRuntime) -> Result<(), Fail> {
    let mut entries: Entries<u32, u32> = Entries::open(rt.alloc(), 8, 100)?;
    let is_set = entries.set_hard_limit(Some(HardLimit {
        cost: 100,
        making: 30,
    }));
    let claimed = (
        is_claim(ask(&mut entries, 1)),
        is_claim(ask(&mut entries, 2)),
        is_claim(ask(&mut entries, 3)),
        is_claim(ask(&mut entries, 4)),
    );
    assert_eq!(rt; (is_set, claimed), (true, (true, true, true, false)));
    assert_eq!(rt; (entries.can_fill(40), entries.can_fill(41)), (true, false));
    let _filled = fill(rt.alloc(), &mut entries, 1, 40);
    let lower = Some(HardLimit {
        cost: 99,
        making: 30,
    });
    assert_eq!(rt; entries.set_hard_limit(lower), false);
    let _failed = fail(&mut entries, 2);
    assert_eq!(rt; entries.set_hard_limit(lower), true);
    assert_eq!(rt; is_claim(ask(&mut entries, 4)), false);
    assert_eq!(rt; entries.set_hard_limit(None), true);
    assert_eq!(rt; is_claim(ask(&mut entries, 4)), true);
    Ok(())
}
