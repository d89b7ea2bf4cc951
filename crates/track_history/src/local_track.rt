//! The track of one thread.

ghost use Rattle.std.specs.Prelude.{◌≡◌, ◌≤◌, length, map, All, IfOk};
ghost use Rattle.std.specs.Arc.{arc_value};
ghost use Rattle.ass_num.specs.Limits.{max_text_bytes};
ghost use Rattle.ass_events.specs.Histories.{HaveOwnOrders, max_live};
ghost use Rattle.ass_events.specs.NearEvents.{AreNear, span_of};
ghost use Rattle.ass_events.specs.Ranges.{IsEvent, text_bytes};
ghost use Rattle.ass_events.specs.declared.event.Event.{Event};
ghost use Rattle.near_events.specs.Spans.{AreNearSpans};
ghost use Rattle.track_history.specs.LocalFeeding.{IsFlushedLocally, IsOfferedTo};
ghost use Rattle.track_history.specs.LocalTracks.{IsTrackOf, new_track};

use crate::{Feed, Flushed, LiveEvents, laws};
use ass_events::Event;
use ass_num::Mem;
use near_events::NearEvents;
use std::alloc::Global;
use std::marker::Model;
use std::sync::Arc;

/// The live events of a track, and how many entries and flushes its history has.
#[derive(Drop)]
pub struct LocalTrack {
    live: LiveEvents,
}

impl Model for LocalTrack {
    ghost use Rattle.track_history.specs.LocalTracks.{LocalTrackView, HasHistory, track_of};

    ghost Value = { LocalTrackView };

    ghost view = { λ t. track_of t.live };

    ghost invariant = { λ t. HasHistory t.live };
}

impl LocalTrack {
    /// A track whose history has no entries. It takes no memory.
    pub fn new(alloc: Global) -> LocalTrack
        ensures { result ≡ new_track }
    {
        let live = LiveEvents::new(alloc);
        LocalTrack { live }
    }

    /// Between calls it stands for a legal history.
    pub fn proof_history(&self)
        ensures { IsTrackOf self.now }
    {
        let _ = &self.live;
    }

    /// Offers an event.
    pub(crate) fn offer(&mut self, alloc: Global, event: &Arc<Event>) -> Feed
        requires event { IsEvent event.now.value }
        requires short { text_bytes event.now.value ≤ max_text_bytes }
        ensures { IsOfferedTo event.now.value self.old self.new result }
    {
        self.live.feed(alloc, event)
    }

    /// Drops all live events, unless there were a million flushes (`ass_flush_events` in libass `ass.h`). It takes no
    /// memory.
    pub fn flush(&mut self) -> Flushed
        ensures { IsFlushedLocally self.old self.new result }
    {
        self.live.flush()
    }

    /// How many entries the history has.
    pub fn entries(&self) -> usize
        ensures { result ≡ self.now.entries }
    {
        self.live.entries()
    }

    /// The live events, in the order in which they were accepted.
    pub fn events(&self) -> &[Arc<Event>]
        ensures events { map arc_value result.now ≡ self.now.events }
        ensures each { All IsEvent (map arc_value result.now) }
    {
        self.live.events.as_slice()
    }

    /// The live events that matter at an instant, and their spans.
    pub fn near(&self, alloc: Global, t: i64) -> Mem<NearEvents>
        ensures near { IfOk result (λ near. AreNear span_of self.now.events t (map arc_value near.events)) }
        ensures spans { IfOk result (λ near. AreNearSpans (map arc_value near.events) t near.spans) }
        ensures each { IfOk result (λ near. All IsEvent (map arc_value near.events)) }
        ensures texts { IfOk result (λ near. All (λ (e : Event). length e.text ≤ max_text_bytes) (map arc_value near.events)) }
        ensures few { IfOk result (λ near. length near.events ≤ max_live) }
        ensures orders { IfOk result (λ near. HaveOwnOrders (map arc_value near.events)) }
    {
        laws::near_is_live();
        self.live.near(alloc, t)
    }
}
