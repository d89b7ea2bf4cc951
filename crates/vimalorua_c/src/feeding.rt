//! Feeding and flushing.

ghost use Rattle.std.specs.Prelude.{◌≡◌, ◌<◌, length};
ghost use Rattle.ass_num.specs.Limits.{max_text_bytes};
ghost use Rattle.vimalorua_c.specs.Calls.{AreLinesFed, IsCall, IsChunkFed, IsFlushTold};

use crate::handle::Handle;
use crate::status::{
    BAD_CALL, CLOSED, DONE, OUT_OF_MEMORY, fed_field, feed_told, flush_told, told_at,
};
use crate::taking::{put_back, take};
use std::alloc::Global;

/// The most bytes of a chunk.
pub(crate) const MAX_CHUNK_BYTES: usize = 134_217_728;

/// Offers the events of the script's own lines, and tells how many entries the track's history has then.
#[unsafe(no_mangle)]
pub extern "C" fn vimalorua_feed_lines(alloc: Global, handle: &mut Handle, place: &mut usize) -> i32
    ensures { IsCall ⊥ (place.new ≡ 0) (AreLinesFed result place.new) result handle.old.value handle.new.value }
{
    *place = 0;
    let Ok(kept) = take(alloc, handle) else {
        return OUT_OF_MEMORY;
    };
    let mut kept = kept;
    let status = match &mut kept.player {
        Some(player) => {
            let fed = player.feed_lines(alloc);
            *place = player.entries();
            match fed {
                Ok(()) => DONE,
                Err(_) => OUT_OF_MEMORY,
            }
        }
        None => CLOSED,
    };
    put_back(handle, kept);
    status
}

/// Offers the event of a chunk, and tells its entry, or the field that refused and its place.
#[unsafe(no_mangle)]
pub extern "C" fn vimalorua_feed_proved(
    alloc: Global,
    handle: &mut Handle,
    chunk: &[u8],
    start: i64,
    duration: i64,
    field: &mut u32,
    place: &mut usize,
) -> i32
    ensures { IsCall (max_text_bytes < length chunk.now) ((field.new ≡ 0) × (place.new ≡ 0)) (IsChunkFed chunk.now start duration result field.new place.new)
        result handle.old.value handle.new.value }
{
    *field = 0;
    *place = 0;
    if chunk.len() > MAX_CHUNK_BYTES {
        return BAD_CALL;
    }
    let Ok(kept) = take(alloc, handle) else {
        return OUT_OF_MEMORY;
    };
    let mut kept = kept;
    let told = match &mut kept.player {
        Some(player) => {
            let answer = player.feed(alloc, chunk, start, duration);
            *field = fed_field(answer);
            feed_told(answer)
        }
        None => told_at(CLOSED, 0),
    };
    put_back(handle, kept);
    *place = told.place;
    told.status
}

/// Drops all live events, and tells the flush's entry.
#[unsafe(no_mangle)]
pub extern "C" fn vimalorua_flush(alloc: Global, handle: &mut Handle, place: &mut usize) -> i32
    ensures { IsCall ⊥ (place.new ≡ 0) (IsFlushTold result place.new) result handle.old.value handle.new.value }
{
    *place = 0;
    let Ok(kept) = take(alloc, handle) else {
        return OUT_OF_MEMORY;
    };
    let mut kept = kept;
    let told = match &mut kept.player {
        Some(player) => flush_told(player.flush()),
        None => told_at(CLOSED, 0),
    };
    put_back(handle, kept);
    *place = told.place;
    told.status
}
