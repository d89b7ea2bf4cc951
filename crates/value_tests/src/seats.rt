//! Seats of one track: one feeds, both draw, and they are dropped in any order.

use crate::players::{CHUNK, FRAME, adds_a_font, opened};
use frame_change::ChangeKind;
use player::Player;
use shared_player::{Seat, ShareRefusal};
use std::alloc::Global;
use std::test::Fail;
use track_history::{Feed, Flushed};

/// The first seat of a player with a font.
fn shared(alloc: Global) -> Result<Seat, Fail> {
    let mut player = opened(alloc)?;
    if !adds_a_font(alloc, &mut player) {
        return Err("there is no font".into());
    }
    match Seat::share(alloc, player) {
        Ok(seat) => Ok(seat),
        Err(_) => Err("the player isn't shared".into()),
    }
}

/// Whether a player that something was fed to comes back.
fn comes_back(alloc: Global, player: Player) -> bool {
    match Seat::share(alloc, player) {
        Ok(_) => false,
        Err((player, refusal)) => refusal == ShareRefusal::WasFed && player.entries() == 1,
    }
}

fn keeps_a_fed_player(alloc: Global) -> Result<bool, Fail> {
    let mut player = opened(alloc)?;
    let fed = player.feed_lines(alloc).is_ok();
    Ok(fed && comes_back(alloc, player))
}

/// Whether a seat that isn't the first one splits none off.
fn is_last(alloc: Global, seat: Seat) -> (Seat, bool) {
    let (seat, new) = seat.split(alloc);
    (seat, new.is_err())
}

/// Whether the script's line becomes an event, and then none is left.
fn feeds_lines(alloc: Global, seat: Seat) -> (Seat, bool) {
    let (seat, lines) = seat.try_feed_lines(alloc, 0);
    let (seat, none) = seat.try_feed_lines(alloc, 1);
    (seat, lines == Ok(Ok(1)) && none == Ok(Ok(1)))
}

/// Whether a chunk becomes an event once.
fn feeds_a_chunk(alloc: Global, seat: Seat) -> (Seat, bool) {
    if CHUNK.len() > 1_000 {
        return (seat, false);
    }
    let (seat, fed) = seat.try_feed(alloc, CHUNK, 1_000, 1_000);
    let (seat, again) = seat.try_feed(alloc, CHUNK, 1_000, 1_000);
    let accepted = fed == Ok(Feed::Accepted(1));
    (seat, accepted && again == Ok(Feed::Repeated(1)))
}

/// Whether the second seat is the last one, and feeds.
fn feeds(alloc: Global, seat: Seat) -> (Seat, bool) {
    let (seat, last) = is_last(alloc, seat);
    let (seat, lines) = feeds_lines(alloc, seat);
    let (seat, chunk) = feeds_a_chunk(alloc, seat);
    (seat, last && lines && chunk)
}

/// Of how many entries the picture of a second is, and how many of its bytes are 255.
fn draws(alloc: Global, seat: Seat) -> (Seat, usize, usize) {
    if seat.font_count() == 0 {
        return (seat, 0, 0);
    }
    let (seat, drawn) = seat.draw(alloc, 1_000, &FRAME);
    match drawn {
        Ok(drawn) => (seat, drawn.entries, lit(drawn.canvas.pixels())),
        Err(_) => (seat, 0, 0),
    }
}

fn lit(pixels: &[u8]) -> usize {
    let mut count = 0usize;
    for pixel in pixels {
        if *pixel == 255 {
            count = count.wrapping_add(1);
        }
    }
    count
}

/// Whether the list of half a second is another one than the empty list before, and how many images it has.
fn lists(alloc: Global, seat: Seat) -> (Seat, bool, usize) {
    if seat.font_count() == 0 {
        return (seat, false, 0);
    }
    let (seat, listed) = seat.images(alloc, 500, &FRAME);
    let count = seat.listed_images().len();
    match listed {
        Ok(listed) => (seat, listed.change == ChangeKind::Other, count),
        Err(_) => (seat, false, count),
    }
}

/// Whether two events are flushed. The seat is dropped then.
fn flushes(alloc: Global, seat: Seat) -> bool {
    let (_seat, flushed) = seat.try_flush(alloc);
    flushed == Ok(Flushed::Done(2))
}

/// What the first seat draws, and how many images it lists. Then it flushes, and is dropped.
fn first_row(alloc: Global, seat: Seat) -> (bool, [usize; 3]) {
    let (seat, entries, bytes) = draws(alloc, seat);
    let (seat, listed, count) = lists(alloc, seat);
    (flushes(alloc, seat) && listed, [entries, bytes, count])
}

/// What the second seat draws. Then it is dropped.
fn last_row(alloc: Global, seat: Seat) -> [usize; 2] {
    let (_seat, entries, bytes) = draws(alloc, seat);
    [entries, bytes]
}

/// The second seat feeds, and then each draws, the first one first.
fn rows_of(alloc: Global, first: Seat, second: Seat) -> (bool, [usize; 3], [usize; 2]) {
    let (second, fed) = feeds(alloc, second);
    let (right, row) = first_row(alloc, first);
    (fed && right, row, last_row(alloc, second))
}

fn rows(alloc: Global, seat: Seat) -> Option<(bool, [usize; 3], [usize; 2])> {
    let (first, second) = seat.split(alloc);
    match second {
        Ok(second) => Some(rows_of(alloc, first, second)),
        Err(_) => None,
    }
}

#[test]
fn seats_of_one_track(rt: HostRuntime) -> Result<(), Fail> {
    let alloc = rt.alloc();
    assert!(rt; keeps_a_fed_player(alloc)?);
    let rows = rows(alloc, shared(alloc)?);
    assert_eq!(rt; rows, Some((true, [2, 12, 3], [3, 0])));
    Ok(())
}
