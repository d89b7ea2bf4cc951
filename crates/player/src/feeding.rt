//! What a player's track is fed, and flushing it.

ghost use Rattle.std.specs.Prelude.{◌≡◌, ◌<◌, ◌≤◌, length, fold, None, IfOk, IfSome, OnOk, OnErr, option_map};
ghost use Rattle.std.specs.Arc.{arc_value};
ghost use Rattle.std.specs.Bool.{Decides};
ghost use Rattle.std.specs.Result.{result_ok};
ghost use Rattle.track_history.specs.LocalFeeding.{AreFrontOffered, IsChunkOffered, IsFlushedLocally, with_offer};
ghost use Rattle.ass_events.specs.Events.{event_of, event_of_line, line_fault};
ghost use Rattle.ass_num.specs.Limits.{max_text_bytes};
ghost use Rattle.ass_events.specs.ScriptEvents.{line_events};
ghost use Rattle.track_history.specs.LocalTracks.{new_track};
ghost use Rattle.track_history.specs.ShortEvents.{IsShortEvent};

use crate::player::Player;
use ass_events::{Event, event_of_line, laws, line_fault};
use ass_num::{Mem, OutOfMemory};
use std::alloc::Global;
use std::sync::Arc;
use track_history::{Feed, Flushed};

impl Player {
    /// Offers the event of a chunk, with its time in milliseconds beside it (`ass_process_chunk` in libass `ass.h`). Only
    /// `Accepted` changes anything: the event is the last of the live ones then. A chunk has at most 134,217,728 bytes.
    pub fn feed(&mut self, alloc: Global, chunk: &[u8], start: i64, duration: i64) -> Feed
        requires { length chunk.now ≤ max_text_bytes }
        ensures fed { IsChunkOffered (event_of chunk.now start duration) self.old.track self.new.track result }
        ensures same { self.new ≡ record self.old { track = self.new.track } }
    {
        self.track.feed(alloc, chunk, start, duration)
    }

    /// Offers the events of the script's Dialogue lines, in order: each has the place of its line as its ReadOrder
    /// (`ass_read_memory` in libass `ass.h`). Lines that give no event are passed over. For out of memory some of the
    /// events were offered, from the first on.
    pub fn feed_lines(&mut self, alloc: Global) -> Mem<()>
        ensures ok { OnOk result (self.new.track ≡ fold with_offer self.old.track (line_events self.old.script)) }
        ensures err { OnErr result (AreFrontOffered (line_events self.old.script) self.old.track self.new.track) }
        ensures same { self.new ≡ record self.old { track = self.new.track } }
    {
        self.track.feed_lines(alloc, &self.script)
    }

    /// Drops all live events, unless there were a million flushes (`ass_flush_events` in libass `ass.h`). It takes no
    /// memory.
    pub fn flush(&mut self) -> Flushed
        ensures flushed { IsFlushedLocally self.old.track self.new.track result }
        ensures same { self.new ≡ record self.old { track = self.new.track } }
    {
        self.track.flush()
    }

    /// How many Dialogue lines its script has.
    pub fn line_count(&self) -> usize
        ensures { result ≡ length self.now.script.lines }
    {
        self.script.line_count()
    }

    /// The event of its script's Dialogue line at `i`, which has that place as its ReadOrder, if the line gives one. A line
    /// that gives none takes no memory.
    pub fn line_event(&self, alloc: Global, i: usize) -> Mem<Option<Arc<Event>>>
        requires { i < length self.now.script.lines }
        ensures event { IfOk result (λ event. option_map arc_value event ≡ result_ok (event_of_line self.now.script i)) }
        ensures short { IfOk result (λ event. IfSome event (λ event. IsShortEvent (arc_value event))) }
        ensures given { OnErr result (line_fault self.now.script i ≡ None) }
    {
        laws::lines_give_events();
        laws::texts_fit();
        if line_fault(&self.script, i).is_some() {
            return Ok(None);
        }
        match event_of_line(alloc, &self.script, i) {
            Ok(event) => Ok(Some(Arc::new(alloc, event)?)),
            Err(_) => Err(OutOfMemory),
        }
    }

    /// Whether nothing was fed to it.
    pub fn is_unfed(&self) -> bool
        ensures { Decides result (self.now.track ≡ new_track) }
    {
        self.track.proof_history();
        self.track.entries() == 0
    }

    /// How many entries the track's history has.
    pub fn entries(&self) -> usize
        ensures { result ≡ self.now.track.entries }
    {
        self.track.entries()
    }
}
