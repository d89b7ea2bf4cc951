//! What a seat feeds its track, and flushing it.

ghost use Rattle.std.specs.Prelude.{◌≡◌, ◌<◌, ◌≤◌, length, None, IfOk, IsOk, OnErr};
ghost use Rattle.std.specs.Arc.{arc_value};
ghost use Rattle.ass_events.specs.Events.{event_of, line_fault};
ghost use Rattle.ass_num.specs.Limits.{max_text_bytes};
ghost use Rattle.shared_player.specs.Tries.{IsLineOffered, IsLineTried, IsLostTry, line_offered, lines_in};
ghost use Rattle.track_history.specs.Calls.{IsFed, IsFlushed, IsOffered};
ghost use Rattle.track_history.specs.ShortEvents.{IsShortEvent};

use crate::seat::Seat;
use ass_events::Event;
use ass_num::{Mem, OutOfMemory};
use std::alloc::Global;
use std::mem::ManuallyDrop;
use std::sync::Arc;
use track_history::{Feed, Flushed, TurnOut};

impl Seat {
    /// Offers an event, unless another seat has the turn: then the try is lost, and that is all. Only `Accepted` changes the
    /// history.
    pub fn try_offer(self, alloc: Global, event: &Arc<Event>) -> (Seat, Result<Feed, TurnOut>)
        requires { IsShortEvent (arc_value event.now) }
        ensures offered { IfOk result.1 (IsOffered (arc_value event.now) self.track result.0.track) }
        ensures out { OnErr result.1 (IsLostTry self.track result.0.track) }
        ensures same { result.0 ≡ record self { track = result.0.track } }
    {
        let Seat {
            player,
            track,
            pass,
            first,
        } = self;
        let pass = ManuallyDrop::into_inner(pass);
        let (pass, answer) = track.try_offer(alloc, pass, event);
        (Seat::of(player, track, pass, first), answer)
    }

    /// Offers the event of a chunk, with its time in milliseconds beside it (`ass_process_chunk` in libass `ass.h`), unless
    /// another seat has the turn: then the try is lost, and that is all. A chunk that gives no event takes no turn. A chunk
    /// has at most 134,217,728 bytes.
    pub fn try_feed(
        self,
        alloc: Global,
        chunk: &[u8],
        start: i64,
        duration: i64,
    ) -> (Seat, Result<Feed, TurnOut>)
        requires { length chunk.now ≤ max_text_bytes }
        ensures fed { IfOk result.1 (IsFed chunk.now start duration self.track result.0.track) }
        ensures event { OnErr result.1 (IsOk (event_of chunk.now start duration)) }
        ensures out { OnErr result.1 (IsLostTry self.track result.0.track) }
        ensures same { result.0 ≡ record self { track = result.0.track } }
    {
        let Seat {
            player,
            track,
            pass,
            first,
        } = self;
        let pass = ManuallyDrop::into_inner(pass);
        let (pass, answer) = track.try_feed(alloc, pass, chunk, start, duration);
        (Seat::of(player, track, pass, first), answer)
    }

    /// Drops all live events, unless there were a million flushes (`ass_flush_events` in libass `ass.h`), or another seat has
    /// the turn: then the try is lost, and that is all. It takes no memory.
    pub fn try_flush(self, alloc: Global) -> (Seat, Result<Flushed, TurnOut>)
        ensures flushed { IfOk result.1 (IsFlushed self.track result.0.track) }
        ensures out { OnErr result.1 (IsLostTry self.track result.0.track) }
        ensures same { result.0 ≡ record self { track = result.0.track } }
    {
        let Seat {
            player,
            track,
            pass,
            first,
        } = self;
        let pass = ManuallyDrop::into_inner(pass);
        let (pass, answer) = track.try_flush(alloc, pass);
        (Seat::of(player, track, pass, first), answer)
    }

    /// Offers the event of the script's Dialogue line at a place, which is its ReadOrder, and tells how many of the lines are
    /// in then: called from 0 on, each time with what it told, it feeds all of them (`ass_read_memory` in libass `ass.h`). A
    /// line that gives no event is passed over. Behind the last line it does nothing. Where another seat has the turn the
    /// try is lost, and that is all.
    pub fn try_feed_lines(self, alloc: Global, from: usize) -> (Seat, Result<Mem<usize>, TurnOut>)
        ensures tried { IsLineTried (lines_in self.script from) (line_offered self.script from) self.track result.0.track result.1 }
        // Only a line that can be read takes memory.
        ensures memory { IfOk result.1 (λ told. OnErr told ((from < length self.script.lines) × (line_fault self.script from ≡ None))) }
        ensures same { result.0 ≡ record self { track = result.0.track } }
    {
        let count = self.line_count();
        if from >= count {
            return (self, Ok(Ok(count)));
        }
        match self.player.line_event(alloc, from) {
            Ok(Some(event)) => self.try_line(alloc, &event, from + 1),
            Ok(None) => (self, Ok(Ok(from + 1))),
            Err(refused) => (self, Ok(Err(refused))),
        }
    }

    /// Offers the event of a line, with which so many are in.
    fn try_line(
        self,
        alloc: Global,
        event: &Arc<Event>,
        count: usize,
    ) -> (Seat, Result<Mem<usize>, TurnOut>)
        requires { IsShortEvent (arc_value event.now) }
        ensures offered { IsLineOffered count (arc_value event.now) self.track result.0.track result.1 }
        ensures same { result.0 ≡ record self { track = result.0.track } }
    {
        let (seat, answer) = self.try_offer(alloc, event);
        match answer {
            Ok(Feed::OutOfMemory) => (seat, Ok(Err(OutOfMemory))),
            Ok(_) => (seat, Ok(Ok(count))),
            Err(out) => (seat, Err(out)),
        }
    }
}
