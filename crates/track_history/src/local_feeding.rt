//! What a track is fed.

ghost use Rattle.std.specs.Prelude.{◌≡◌, ◌≤◌, All, length, map, fold, OnOk, OnErr};
ghost use Rattle.std.specs.Arc.{arc_value};
ghost use Rattle.ass_events.specs.Events.{event_of};
ghost use Rattle.ass_num.specs.Limits.{max_text_bytes};
ghost use Rattle.ass_script.specs.Ranges.{IsScript};
ghost use Rattle.ass_events.specs.LineLaws.{HasShortLines};
ghost use Rattle.ass_events.specs.ScriptEvents.{line_events};
ghost use Rattle.track_history.specs.ShortEvents.{IsShortEvent};
ghost use Rattle.ass_events.specs.Ranges.{IsEvent, text_bytes};
ghost use Rattle.track_history.specs.LocalFeeding.{AreFrontOffered, IsChunkOffered, IsOfferedTo, with_offer};

use crate::Feed;
use crate::local_track::LocalTrack;
use ass_events::{ChunkRefusal, Event, events_of, laws, read_chunk};
use ass_num::{Mem, OutOfMemory};
use ass_script::Script;
use std::alloc::Global;
use std::sync::Arc;

impl LocalTrack {
    /// Offers the event of a chunk, with its time in milliseconds beside it (`ass_process_chunk` in libass `ass.h`). Only
    /// `Accepted` changes anything: the event is the last of the live ones then.
    pub fn feed(&mut self, alloc: Global, chunk: &[u8], start: i64, duration: i64) -> Feed
        requires { length chunk.now ≤ max_text_bytes }
        ensures { IsChunkOffered (event_of chunk.now start duration) self.old self.new result }
    {
        match read_chunk(alloc, chunk, start, duration) {
            Ok(event) => self.offer_new(alloc, event),
            Err(ChunkRefusal::Malformed(field, place)) => Feed::Malformed(field, place),
            Err(ChunkRefusal::OutOfMemory) => Feed::OutOfMemory,
        }
    }

    /// Offers an event that nobody shares yet.
    fn offer_new(&mut self, alloc: Global, event: Event) -> Feed
        requires event { IsEvent event }
        requires short { text_bytes event ≤ max_text_bytes }
        ensures { IsOfferedTo event self.old self.new result }
    {
        let Ok(event) = Arc::new(alloc, event) else {
            return Feed::OutOfMemory;
        };
        self.offer(alloc, &event)
    }

    /// Offers the events of a script's Dialogue lines, in order: each has the place of its line as its ReadOrder
    /// (`ass_read_memory` in libass `ass.h`). Lines that give no event are passed over. For out of memory some of the
    /// events were offered, from the first on.
    pub fn feed_lines(&mut self, alloc: Global, script: &Script) -> Mem<()>
        requires script { IsScript script.now }
        requires short { HasShortLines script.now }
        ensures ok { OnOk result (self.new ≡ fold with_offer self.old (line_events script.now)) }
        ensures err { OnErr result (AreFrontOffered (line_events script.now) self.old self.new) }
    {
        laws::lines_give_events();
        laws::texts_fit();
        let events = events_of(alloc, script)?;
        self.offer_all(alloc, events.as_slice())
    }

    /// Offers events, in order.
    fn offer_all(&mut self, alloc: Global, events: &[Arc<Event>]) -> Mem<()>
        requires { All IsShortEvent (map arc_value events.now) }
        ensures ok { OnOk result (self.new ≡ fold with_offer self.old (map arc_value events.now)) }
        ensures err { OnErr result (AreFrontOffered (map arc_value events.now) self.old self.new) }
    {
        for event in events {
            self.offer_one(alloc, event)?;
        }
        Ok(())
    }

    /// Offers an event, with memory at hand.
    fn offer_one(&mut self, alloc: Global, event: &Arc<Event>) -> Mem<()>
        requires { IsShortEvent event.now.value }
        ensures ok { OnOk result (self.new ≡ with_offer self.old event.now.value) }
        ensures err { OnErr result (self.new ≡ self.old) }
    {
        match self.offer(alloc, event) {
            Feed::OutOfMemory => Err(OutOfMemory),
            Feed::Accepted(_) => Ok(()),
            Feed::Repeated(_) => Ok(()),
            Feed::Malformed(_, _) => Ok(()),
            Feed::Full(_) => Ok(()),
        }
    }
}
