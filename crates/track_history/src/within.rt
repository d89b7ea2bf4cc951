//! Calls that try so often for the turn, and wait for nobody.
ghost use Rattle.std.specs.Prelude.{◌≡◌, ◌+◌, ◌≤◌, length, IfOk, IsOk, OnErr};
ghost use Rattle.std.specs.Arc.{arc_value};
ghost use Rattle.turn_cell.specs.Passes.{IsOf};
ghost use Rattle.ass_events.specs.Events.{event_of};
ghost use Rattle.ass_events.specs.Ranges.{IsEvent, text_bytes};
ghost use Rattle.ass_num.specs.Limits.{max_text_bytes};
ghost use Rattle.track_history.specs.Calls.{IsFed, IsOffered};

use crate::answers::{Feed, TurnOut};
use crate::track::{Track, TrackPass, read_event};
use ass_events::Event;
use crossbeam_utils::Backoff;
use std::alloc::Global;
use std::sync::Arc;

impl Track {
    /// Offers the event of a chunk as [`Track::feed`] does, where the turn is had within so many tries, at least one. Else these tries
    /// are lost, and nothing is done. It pauses between tries, and waits for nobody.
    pub fn feed_within(
        &self,
        alloc: Global,
        pass: TrackPass,
        chunk: &[u8],
        start: i64,
        duration: i64,
        tries: u32,
    ) -> (TrackPass, Result<Feed, TurnOut>)
        requires cell { IsOf self.now pass }
        requires short { length chunk.now ≤ max_text_bytes }
        requires tries { 1 ≤ tries }
        ensures fed { IfOk result.1 (IsFed chunk.now start duration pass result.0) }
        ensures event { OnErr result.1 (IsOk (event_of chunk.now start duration)) }
        ensures out { OnErr result.1 (result.0 ≡ record pass { lost = pass.lost + tries }) }
    {
        match read_event(alloc, chunk, start, duration) {
            Ok(event) => self.offer_within(alloc, pass, &event, tries),
            Err(answer) => (pass, Ok(answer)),
        }
    }

    /// Offers an event where the turn is had within so many tries, at least one. Else these tries are lost, and nothing is done. The
    /// texts of an event have together at most 134,217,728 bytes.
    pub fn offer_within(
        &self,
        alloc: Global,
        pass: TrackPass,
        event: &Arc<Event>,
        tries: u32,
    ) -> (TrackPass, Result<Feed, TurnOut>)
        requires cell { IsOf self.now pass }
        requires event { IsEvent (arc_value event.now) }
        requires short { text_bytes (arc_value event.now) ≤ max_text_bytes }
        requires tries { 1 ≤ tries }
        ensures fed { IfOk result.1 (IsOffered (arc_value event.now) pass result.0) }
        ensures out { OnErr result.1 (result.0 ≡ record pass { lost = pass.lost + tries }) }
    {
        let backoff = Backoff::new();
        let mut waiting = pass;
        for _lost in 0..tries - 1 {
            let (pass, tried) = self.try_offer(alloc, waiting, event);
            match tried {
                Ok(answer) => return (pass, Ok(answer)),
                Err(TurnOut) => waiting = pass,
            }
            backoff.snooze();
        }
        self.try_offer(alloc, waiting, event)
    }
}
