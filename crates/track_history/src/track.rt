//! A track, and the calls on it.

ghost use Rattle.std.specs.Prelude.{◌≡◌, ◌+◌, ◌<◌, ◌≤◌, List, [], length, None, Ok, IfOk, IfErr, IsOk, OnErr, OnOk};
ghost use Rattle.std.specs.Arc.{arc_value};
ghost use Rattle.turn_cell.specs.History.{IsPrefix, IsBelow};
ghost use Rattle.turn_cell.specs.Passes.{IsOf, IsTurnAfterTries, Extends, first_pass, split_pass, new_pass, joined_pass, mine};
ghost use Rattle.ass_events.specs.Events.{event_of};
ghost use Rattle.ass_events.specs.Histories.{Entry, live};
ghost use Rattle.ass_num.specs.Limits.{max_text_bytes};
ghost use Rattle.ass_events.specs.Ranges.{IsEvent, text_bytes};
ghost use Rattle.track_history.specs.Answers.{IsSceneFrom, IsSceneOf, read_orders};
ghost use Rattle.track_history.specs.Calls.{IsFed, IsFlushed, IsOffered, IsTriedLook, IsTurn, StandsFor, TrackView, history_of};
ghost use Rattle.track_history.specs.Tellings.{IsSound, Tells};

use crate::answers::{Feed, Flushed, FromRefusal, LookRefusal, TrackEntry, TurnOut};
use crate::live_events::LiveEvents;
use crate::scene::Scene;
use ass_events::{ChunkRefusal, Event, read_chunk};
use ass_num::{Items, Mem, OutOfMemory};
use near_events::NearEvents;
use std::alloc::Global;
use std::marker::Model;
use std::snapshot::Snapshot;
use std::sync::{Arc, Wait};
use turn_cell::{Book, Pass, Turn, TurnCell};

impl Book for LiveEvents {
    ghost use Rattle.track_history.specs.Calls.{StandsFor};

    type Entry = TrackEntry;

    type Tag = ();

    ghost stands = { λ _ live list. StandsFor live list };
}

/// The right to call a track, and what its owner has seen of the history. It must be spent: each call that takes one gives one back,
/// but for [`Track::close`] and the second pass of a join.
pub struct TrackPass {
    pass: Pass<LiveEvents>,
}

impl Model for TrackPass {
    ghost use Rattle.track_history.specs.Calls.{TrackView};

    ghost Value = { TrackView };

    ghost view = { λ p. p.pass };
}

/// The accepted events of a track, in one history. Threads share it by `&`.
///
/// A pass must come from the track that it is used on. What says `rt` may wait for the turn; nothing else waits.
#[derive(Drop)]
pub struct Track {
    cell: TurnCell<LiveEvents>,
}

impl Model for Track {
    ghost use Rattle.turn_cell.specs.Passes.{CellView};

    ghost Value = { CellView (Unit {0}) };

    ghost view = { λ track. track.cell };
}

impl Track {
    /// A track without events, and its first pass.
    pub fn open(alloc: Global) -> Mem<(Track, TrackPass)>
        ensures { IfOk result (λ r. r.1 ≡ first_pass r.0) }
    {
        match TurnCell::open(alloc, (), LiveEvents::new(alloc)) {
            Ok((cell, pass)) => Ok((Track { cell }, TrackPass { pass })),
            Err(_) => Err(OutOfMemory),
        }
    }

    /// Offers the event of a chunk, with its time in milliseconds beside it (`ass_process_chunk` in libass `ass.h`). Only `Accepted`
    /// changes the history. A malformed chunk takes no turn. A chunk has at most 134,217,728 bytes, so that each live event is short.
    pub fn feed<R: Wait>(
        &self,
        rt: &R,
        alloc: Global,
        pass: TrackPass,
        chunk: &[u8],
        start: i64,
        duration: i64,
    ) -> (TrackPass, Feed)
        requires cell { IsOf self.now pass }
        requires short { length chunk.now ≤ max_text_bytes }
        ensures { IsFed chunk.now start duration pass result.0 result.1 }
    {
        match read_event(alloc, chunk, start, duration) {
            Ok(event) => self.feed_event(rt, alloc, pass, &event),
            Err(answer) => (pass, answer),
        }
    }

    /// Offers an event at a turn.
    fn feed_event<R: Wait>(
        &self,
        rt: &R,
        alloc: Global,
        pass: TrackPass,
        event: &Arc<Event>,
    ) -> (TrackPass, Feed)
        requires cell { IsOf self.now pass }
        requires event { IsEvent (arc_value event.now) }
        requires short { text_bytes (arc_value event.now) ≤ max_text_bytes }
        ensures { IsOffered (arc_value event.now) pass result.0 result.1 }
    {
        let before = Snapshot::of(&pass);
        let TrackPass { pass } = pass;
        let turn = self.cell.take(rt, pass);
        self.fed_at(alloc, before, turn, event)
    }

    /// Offers the event of a chunk without waiting: where another pass has the turn, the try is lost, and nothing is done. A chunk that
    /// gives no event takes no turn, and is answered as [`Track::feed`] does. A chunk has at most 134,217,728 bytes.
    pub fn try_feed(
        &self,
        alloc: Global,
        pass: TrackPass,
        chunk: &[u8],
        start: i64,
        duration: i64,
    ) -> (TrackPass, Result<Feed, TurnOut>)
        requires cell { IsOf self.now pass }
        requires short { length chunk.now ≤ max_text_bytes }
        ensures fed { IfOk result.1 (IsFed chunk.now start duration pass result.0) }
        ensures event { OnErr result.1 (IsOk (event_of chunk.now start duration)) }
        ensures out { OnErr result.1 (result.0 ≡ record pass { lost = pass.lost + 1 }) }
    {
        match read_event(alloc, chunk, start, duration) {
            Ok(event) => self.try_offer(alloc, pass, &event),
            Err(answer) => (pass, Ok(answer)),
        }
    }

    /// Offers an event without waiting: where another pass has the turn, the try is lost, and nothing is done. The texts of an event have
    /// together at most 134,217,728 bytes.
    pub fn try_offer(
        &self,
        alloc: Global,
        pass: TrackPass,
        event: &Arc<Event>,
    ) -> (TrackPass, Result<Feed, TurnOut>)
        requires cell { IsOf self.now pass }
        requires event { IsEvent (arc_value event.now) }
        requires short { text_bytes (arc_value event.now) ≤ max_text_bytes }
        ensures fed { IfOk result.1 (IsOffered (arc_value event.now) pass result.0) }
        ensures out { OnErr result.1 (result.0 ≡ record pass { lost = pass.lost + 1 }) }
    {
        let before = Snapshot::of(&pass);
        match self.try_turn(pass) {
            Ok(turn) => {
                let (pass, answer) = self.fed_at(alloc, before, turn, event);
                (pass, Ok(answer))
            }
            Err(pass) => (pass, Err(TurnOut)),
        }
    }

    /// Offers an event at the turn that the pass took.
    fn fed_at(
        &self,
        alloc: Global,
        before: Snapshot<TrackPass>,
        mut turn: Turn<LiveEvents>,
        event: &Arc<Event>,
    ) -> (TrackPass, Feed)
        requires cell { IsOf self.now before.value }
        requires turn { IsTurnAfterTries (λ _ live list. StandsFor live list) self.now.tag before.value turn }
        requires event { IsEvent (arc_value event.now) }
        requires short { text_bytes (arc_value event.now) ≤ max_text_bytes }
        ensures { IsOffered (arc_value event.now) before.value result.0 result.1 }
    {
        let _ = before;
        let answer = turn.value_mut().feed(alloc, event);
        let pass = self.cell.give(turn, answer.entry(event));
        (TrackPass { pass }, answer)
    }

    /// Drops all live events: the flush is an entry of the history. It takes no memory, and frees the events once it has given the
    /// turn back.
    pub fn flush<R: Wait>(&self, rt: &R, alloc: Global, pass: TrackPass) -> (TrackPass, Flushed)
        requires { IsOf self.now pass }
        ensures { IsFlushed pass result.0 result.1 }
    {
        let before = Snapshot::of(&pass);
        let TrackPass { pass } = pass;
        let turn = self.cell.take(rt, pass);
        self.flushed_at(alloc, before, turn)
    }

    /// Drops all live events without waiting: where another pass has the turn, the try is lost, and nothing is done. It takes no memory,
    /// and frees the events once it has given the turn back.
    pub fn try_flush(&self, alloc: Global, pass: TrackPass) -> (TrackPass, Result<Flushed, TurnOut>)
        requires { IsOf self.now pass }
        ensures flushed { IfOk result.1 (IsFlushed pass result.0) }
        ensures out { OnErr result.1 (result.0 ≡ record pass { lost = pass.lost + 1 }) }
    {
        let before = Snapshot::of(&pass);
        match self.try_turn(pass) {
            Ok(turn) => {
                let (pass, answer) = self.flushed_at(alloc, before, turn);
                (pass, Ok(answer))
            }
            Err(pass) => (pass, Err(TurnOut)),
        }
    }

    /// Drops all live events at the turn that the pass took.
    fn flushed_at(
        &self,
        alloc: Global,
        before: Snapshot<TrackPass>,
        mut turn: Turn<LiveEvents>,
    ) -> (TrackPass, Flushed)
        requires cell { IsOf self.now before.value }
        requires turn { IsTurnAfterTries (λ _ live list. StandsFor live list) self.now.tag before.value turn }
        ensures { IsFlushed before.value result.0 result.1 }
    {
        let _ = before;
        let mut dropped = LiveEvents::new(alloc);
        let answer = turn.value_mut().flush_into(&mut dropped);
        let pass = self.cell.give(turn, answer.entry());
        (TrackPass { pass }, answer)
    }

    /// The turn, if it is home.
    fn try_turn(&self, pass: TrackPass) -> Result<Turn<LiveEvents>, TrackPass>
        requires { IsOf self.now pass }
        ensures turn { IfOk result (IsTurnAfterTries (λ _ live list. StandsFor live list) self.now.tag pass) }
        ensures out { IfErr result (λ p. p ≡ record pass { lost = pass.lost + 1 }) }
    {
        let TrackPass { pass } = pass;
        match self.cell.try_take(pass) {
            Ok(turn) => Ok(turn),
            Err(pass) => Err(TrackPass { pass }),
        }
    }

    /// What the history shows at an instant, in milliseconds.
    pub fn look<R: Wait>(
        &self,
        rt: &R,
        alloc: Global,
        pass: TrackPass,
        t: i64,
    ) -> (TrackPass, Mem<Scene>)
        requires { IsOf self.now pass }
        ensures turn { IsTurn pass result.0 None }
        ensures scene { IfOk result.1 (IsSceneOf (history_of result.0.seen) t) }
    {
        let TrackPass { pass } = pass;
        let turn = self.cell.take(rt, pass);
        self.scene_of(alloc, turn, t)
    }

    /// What the history shows at an instant, in milliseconds, where it has at least so many entries. Where it has fewer the answer says
    /// how many, and takes no memory.
    pub fn look_from<R: Wait>(
        &self,
        rt: &R,
        alloc: Global,
        pass: TrackPass,
        t: i64,
        least: usize,
    ) -> (TrackPass, Result<Scene, FromRefusal>)
        requires { IsOf self.now pass }
        ensures turn { IsTurn pass result.0 None }
        ensures scene { IsSceneFrom (history_of result.0.seen) t least result.1 }
    {
        let TrackPass { pass } = pass;
        let turn = self.cell.take(rt, pass);
        let n = turn.value().entries();
        if n < least {
            let pass = self.cell.give(turn, None);
            return (TrackPass { pass }, Err(FromRefusal::Behind(n)));
        }
        let (pass, scene) = self.scene_of(alloc, turn, t);
        match scene {
            Ok(scene) => (pass, Ok(scene)),
            Err(_) => (pass, Err(FromRefusal::OutOfMemory)),
        }
    }

    /// Looks without waiting: where another pass has the turn, the try is lost, and there is no scene.
    pub fn try_look(
        &self,
        alloc: Global,
        pass: TrackPass,
        t: i64,
    ) -> (TrackPass, Result<Scene, LookRefusal>)
        requires { IsOf self.now pass }
        ensures { IsTriedLook pass t result.0 result.1 }
    {
        let TrackPass { pass } = pass;
        match self.cell.try_take(pass) {
            Ok(turn) => {
                let (pass, scene) = self.scene_of(alloc, turn, t);
                (pass, scene.map_err(|_| LookRefusal::OutOfMemory))
            }
            Err(pass) => (TrackPass { pass }, Err(LookRefusal::TurnOut)),
        }
    }

    /// Gives the turn back, and answers what its history shows.
    fn scene_of(&self, alloc: Global, turn: Turn<LiveEvents>, t: i64) -> (TrackPass, Mem<Scene>)
        requires cell { IsOf self.now turn.pass }
        requires value { StandsFor turn.value turn.list }
        ensures pass { result.0 ≡ record turn.pass { seen = turn.list } }
        ensures scene { IfOk result.1 (IsSceneOf (history_of turn.list) t) }
    {
        let scene = scene(alloc, turn.value(), t);
        let pass = self.cell.give(turn, None);
        (TrackPass { pass }, scene)
    }

    /// The ReadOrders of the live events, in the order in which they were accepted.
    pub fn orders<R: Wait>(
        &self,
        rt: &R,
        alloc: Global,
        pass: TrackPass,
    ) -> (TrackPass, Mem<Items<u32>>)
        requires { IsOf self.now pass }
        ensures turn { IsTurn pass result.0 None }
        ensures orders { IfOk result.1 (λ orders. orders ≡ read_orders (live (history_of result.0.seen))) }
    {
        let TrackPass { pass } = pass;
        let turn = self.cell.take(rt, pass);
        let orders = turn.value().orders(alloc);
        let pass = self.cell.give(turn, None);
        (TrackPass { pass }, orders)
    }

    /// Splits a new pass off the first one. The first pass comes back where 4,294,967,295 numbers were made.
    pub fn split(&self, pass: TrackPass) -> Result<(TrackPass, TrackPass), TrackPass>
        requires cell { IsOf self.now pass }
        requires first { pass.number ≡ 0 }
        ensures passes { IfOk result (λ r. (r.0 ≡ split_pass pass) × (r.1 ≡ new_pass pass)) }
        ensures room { OnOk result (pass.next < u32.MAX) }
        ensures refused { IfErr result (λ p. (pass.next ≡ u32.MAX) × (p ≡ pass)) }
        ensures empty { IfOk result (λ r. mine r.1 ≡ []) }
        ensures below { IfOk result (λ r. IsBelow r.1.number r.1.seen × IsBelow r.0.next r.0.seen) }
    {
        let TrackPass { pass } = pass;
        match self.cell.split(pass) {
            Ok((first, new)) => Ok((TrackPass { pass: first }, TrackPass { pass: new })),
            Err(pass) => Err(TrackPass { pass }),
        }
    }

    /// Spends the other pass. The first one keeps its number, what it gave, and the longer of what both had seen.
    pub fn join(&self, pass: TrackPass, other: TrackPass) -> TrackPass
        requires cells { IsOf self.now pass × IsOf self.now other }
        requires first { pass.number ≡ 0 }
        ensures pass { result ≡ joined_pass pass other }
        ensures begins { IsPrefix pass.seen result.seen × IsPrefix other.seen result.seen }
        ensures mine { mine result ≡ mine pass }
        ensures itself { Extends result result.seen }
    {
        let TrackPass { pass } = pass;
        let TrackPass { pass: other } = other;
        TrackPass {
            pass: self.cell.join(pass, other),
        }
    }

    /// Frees the track, unless a pass that was never joined has the turn.
    pub fn close(self, pass: TrackPass)
        requires cell { IsOf self pass }
        requires first { pass.number ≡ 0 }
    {
        let TrackPass { pass } = pass;
        let Track { cell } = self;
        let _live = cell.close(pass);
    }
}

/// What the live events show at an instant.
fn scene(alloc: Global, live: &LiveEvents, t: i64) -> Mem<Scene>
    requires { IsSound live.now }
    ensures { (history : List Entry) → Tells live.now history → IfOk result (IsSceneOf history t) }
{
    let NearEvents { events, spans } = live.near(alloc, t)?;
    Ok(Scene {
        n: live.entries(),
        t,
        events,
        spans,
    })
}

/// The event of a chunk, to share. Else the answer to the chunk, which takes no turn.
pub(crate) fn read_event(
    alloc: Global,
    chunk: &[u8],
    start: i64,
    duration: i64,
) -> Result<Arc<Event>, Feed>
    requires { length chunk.now ≤ max_text_bytes }
    ensures event { IfOk result (λ event. event_of chunk.now start duration ≡ Ok (arc_value event)) }
    ensures in_range { IfOk result (λ event. IsEvent (arc_value event)) }
    ensures short { IfOk result (λ event. text_bytes (arc_value event) ≤ max_text_bytes) }
    ensures refused { (pass : TrackView) → IfErr result (IsFed chunk.now start duration pass pass) }
{
    match read_chunk(alloc, chunk, start, duration) {
        Ok(event) => match Arc::new(alloc, event) {
            Ok(event) => Ok(event),
            Err(_) => Err(Feed::OutOfMemory),
        },
        Err(ChunkRefusal::Malformed(field, place)) => Err(Feed::Malformed(field, place)),
        Err(ChunkRefusal::OutOfMemory) => Err(Feed::OutOfMemory),
    }
}
