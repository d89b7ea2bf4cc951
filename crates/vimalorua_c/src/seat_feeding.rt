//! Feeding and flushing by seats.

ghost use Rattle.std.specs.Prelude.{◌≡◌, ◌<◌, length};
ghost use Rattle.ass_num.specs.Limits.{max_text_bytes};
ghost use Rattle.vimalorua_c.specs.SeatCalls.{IsChunkTried, IsFlushTried, IsLineTold, IsSeatCall};

use crate::feeding::MAX_CHUNK_BYTES;
use crate::seat_handle::SeatHandle;
use crate::seat_taking::{put_seat_back, take_seat};
use crate::status::{
    BAD_CALL, CLOSED, OUT_OF_MEMORY, line_told, told_at, tried_feed_told, tried_field,
    tried_flush_told,
};
use std::alloc::Global;

/// Offers the event of a chunk, unless another seat has the track, and tells its entry, or the field that refused and its place.
#[unsafe(no_mangle)]
pub extern "C" fn vimalorua_try_feed_proved(
    alloc: Global,
    handle: &mut SeatHandle,
    chunk: &[u8],
    start: i64,
    duration: i64,
    field: &mut u32,
    place: &mut usize,
) -> i32
    ensures { IsSeatCall (max_text_bytes < length chunk.now) ((field.new ≡ 0) × (place.new ≡ 0)) (IsChunkTried chunk.now start duration result field.new place.new)
        result handle.old.value handle.new.value }
{
    *field = 0;
    *place = 0;
    if chunk.len() > MAX_CHUNK_BYTES {
        return BAD_CALL;
    }
    let Ok(taken) = take_seat(alloc, handle) else {
        return OUT_OF_MEMORY;
    };
    let (kept, seat) = taken;
    let (seat, told) = match seat {
        Some(seat) => {
            let (seat, answer) = seat.try_feed(alloc, chunk, start, duration);
            *field = tried_field(answer);
            (Some(seat), tried_feed_told(answer))
        }
        None => (None, told_at(CLOSED, 0)),
    };
    put_seat_back(handle, kept, seat);
    *place = told.place;
    told.status
}

/// Offers the event of the script's line behind so many, unless another seat has the track, and tells how many of them are in.
#[unsafe(no_mangle)]
pub extern "C" fn vimalorua_try_feed_lines(
    alloc: Global,
    handle: &mut SeatHandle,
    place: &mut usize,
) -> i32
    ensures { IsSeatCall ⊥ (place.new ≡ place.old) (IsLineTold place.old result place.new) result handle.old.value handle.new.value }
{
    let from = *place;
    let Ok(taken) = take_seat(alloc, handle) else {
        return OUT_OF_MEMORY;
    };
    let (kept, seat) = taken;
    let (seat, told) = match seat {
        Some(seat) => {
            let (seat, answer) = seat.try_feed_lines(alloc, from);
            (Some(seat), line_told(from, answer))
        }
        None => (None, told_at(CLOSED, from)),
    };
    put_seat_back(handle, kept, seat);
    *place = told.place;
    told.status
}

/// Drops all live events, unless another seat has the track, and tells the flush's entry.
#[unsafe(no_mangle)]
pub extern "C" fn vimalorua_try_flush(
    alloc: Global,
    handle: &mut SeatHandle,
    place: &mut usize,
) -> i32
    ensures { IsSeatCall ⊥ (place.new ≡ 0) (IsFlushTried result place.new) result handle.old.value handle.new.value }
{
    *place = 0;
    let Ok(taken) = take_seat(alloc, handle) else {
        return OUT_OF_MEMORY;
    };
    let (kept, seat) = taken;
    let (seat, told) = match seat {
        Some(seat) => {
            let (seat, answer) = seat.try_flush(alloc);
            (Some(seat), tried_flush_told(answer))
        }
        None => (None, told_at(CLOSED, 0)),
    };
    put_seat_back(handle, kept, seat);
    *place = told.place;
    told.status
}
