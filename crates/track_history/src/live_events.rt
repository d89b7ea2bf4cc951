//! What is kept of a track's history: the live events, and how many entries and flushes there were.

ghost use Rattle.std.specs.Prelude.{◌≡◌, ℕ, ◌+◌, ◌<◌, ◌≤◌, ◌++◌, ◌∷◌, List, [], None, IfOk, OnOk, OnErr, length, map};
ghost use Rattle.std.specs.Arc.{arc_value};
ghost use Rattle.ass_events.specs.Histories.{Entry, max_live};
ghost use Rattle.ass_events.specs.NearEvents.{AreNear, span_of};
ghost use Rattle.ass_num.specs.Limits.{max_text_bytes};
ghost use Rattle.ass_events.specs.Ranges.{IsEvent, text_bytes};
ghost use Rattle.near_events.specs.Spans.{AreNearSpans};
ghost use Rattle.track_history.specs.Answers.{IsAcceptedElse, IsFeedAnswer, fed_entry, flush_answer, flushed_entry, extended, position_of, read_orders};
ghost use Rattle.track_history.specs.Tellings.{IsSound, Tells, events_of};

use crate::answers::{Feed, Flushed};
use crate::near_index::NearIndex;
use ass_events::Event;
use ass_num::{Items, Mem};
use near_events::{EventSpan, NearEvents, sort_by_layer};
use std::alloc::Global;
use std::collections::BTreeMap;
use std::mem;
use std::sync::Arc;

/// The most live events of a track.
const MAX_LIVE: usize = 1_000_000;

/// The most flushes of a track.
const MAX_FLUSHES: usize = 1_000_000;

/// The live events of a track in the order in which they were accepted, and how many entries and flushes its history has. It is what
/// lies behind a track's turn; one thread can use it alone.
#[derive(Drop)]
pub struct LiveEvents {
    pub(crate) events: Vec<Arc<Event>>,
    // The place among them of the event of each ReadOrder.
    pub(crate) places: BTreeMap<u32, usize>,
    pub(crate) index: NearIndex,
    pub(crate) entries: usize,
    pub(crate) flushes: usize,
}

impl LiveEvents {
    /// What is kept of a history without entries.
    pub fn new(alloc: Global) -> LiveEvents
        ensures sound { IsSound result }
        ensures history { Tells result [] }
    {
        LiveEvents {
            events: Vec::new(alloc),
            places: BTreeMap::new(alloc),
            index: NearIndex::new(alloc),
            entries: 0,
            flushes: 0,
        }
    }

    /// Accepts the event if no live event has its ReadOrder and there is room. Whatever else is answered, the history stays as it is.
    /// Only where it would accept the event may memory run out.
    pub fn feed(&mut self, alloc: Global, event: &Arc<Event>) -> Feed
        requires sound { IsSound self.old }
        requires event { IsEvent event.now.value }
        requires short { text_bytes event.now.value ≤ max_text_bytes }
        ensures sound { IsSound self.new }
        ensures answer { (history : List Entry) → Tells self.old history → IsFeedAnswer history event.now.value result }
        ensures wanting { (history : List Entry) → Tells self.old history → IsAcceptedElse history event.now.value result }
        ensures history { (history : List Entry) → Tells self.old history → Tells self.new (extended history (fed_entry event.now.value result)) }
    {
        if let Some(place) = self.place_of(event.order) {
            return Feed::Repeated(self.entries - self.events.len() + place);
        }
        if self.events.len() >= MAX_LIVE {
            return Feed::Full(MAX_LIVE);
        }
        let place = self.entries;
        match self.accept(alloc, event) {
            Ok(()) => Feed::Accepted(place),
            Err(_) => Feed::OutOfMemory,
        }
    }

    /// Where the live event of this ReadOrder is among the live events.
    fn place_of(&self, order: u32) -> Option<usize>
        requires { IsSound self.now }
        ensures { result ≡ position_of order (events_of self.now) }
    {
        self.places.get(&order).copied()
    }

    /// Puts the event behind the others. A refusal leaves the history as it was.
    fn accept(&mut self, alloc: Global, event: &Arc<Event>) -> Mem<()>
        requires sound { IsSound self.old }
        requires event { IsEvent event.now.value }
        requires new { position_of event.now.value.order (events_of self.old) ≡ None }
        requires room { length (events_of self.old) < max_live }
        ensures sound { IsSound self.new }
        ensures flushes { self.new.flushes ≡ self.old.flushes }
        ensures ok { OnOk result (events_of self.new ≡ events_of self.old ++ event.now.value ∷ []) }
        ensures counted { OnOk result (self.new.entries ≡ self.old.entries + 1) }
        ensures err { OnErr result (events_of self.new ≡ events_of self.old) }
        ensures uncounted { OnErr result (self.new.entries ≡ self.old.entries) }
    {
        let place = self.events.len();
        let span = EventSpan::of(event, place);
        let shared = Arc::try_clone(event)?;
        self.events.reserve(1)?;
        self.places.insert(event.order, place)?;
        match self.index.insert(alloc, span) {
            Ok(()) => {}
            Err(refused) => {
                self.places.remove(&event.order);
                return Err(refused);
            }
        }
        self.events.push_reserved(shared);
        self.entries += 1;
        Ok(())
    }

    /// Drops all live events, unless there were too many flushes. It takes no memory.
    pub fn flush(&mut self) -> Flushed
        requires { IsSound self.old }
        ensures sound { IsSound self.new }
        ensures answer { (history : List Entry) → Tells self.old history → result ≡ flush_answer history }
        ensures history { (history : List Entry) → Tells self.old history → Tells self.new (extended history (flushed_entry result)) }
    {
        if self.flushes >= MAX_FLUSHES {
            return Flushed::TooMany(MAX_FLUSHES);
        }
        self.events.clear();
        self.places.clear();
        self.index.clear();
        let place = self.entries;
        self.entries += 1;
        self.flushes += 1;
        Flushed::Done(place)
    }

    /// Drops all live events as [`LiveEvents::flush`] does, but frees none: they are handed out in what has no event yet. So what
    /// holds up others while it has `self` takes no longer for many events than for few.
    pub fn flush_into(&mut self, dropped: &mut LiveEvents) -> Flushed
        requires sound { IsSound self.old }
        requires empty { IsSound dropped.old × (events_of dropped.old ≡ []) }
        ensures sound { IsSound self.new }
        ensures answer { (history : List Entry) → Tells self.old history → result ≡ flush_answer history }
        ensures history { (history : List Entry) → Tells self.old history → Tells self.new (extended history (flushed_entry result)) }
        ensures dropped { (place : ℕ) → result ≡ Flushed.Done place → events_of dropped.new ≡ events_of self.old }
    {
        if self.flushes >= MAX_FLUSHES {
            return Flushed::TooMany(MAX_FLUSHES);
        }
        mem::swap(&mut self.events, &mut dropped.events);
        mem::swap(&mut self.places, &mut dropped.places);
        mem::swap(&mut self.index, &mut dropped.index);
        let place = self.entries;
        self.entries += 1;
        self.flushes += 1;
        Flushed::Done(place)
    }

    /// How many entries the history has.
    pub fn entries(&self) -> usize
        ensures { (history : List Entry) → Tells self.now history → result ≡ length history }
    {
        self.entries
    }

    /// The live events that matter at an instant, and their spans.
    pub fn near(&self, alloc: Global, t: i64) -> Mem<NearEvents>
        requires { IsSound self.now }
        ensures events { IfOk result (λ near. AreNear span_of (events_of self.now) t (map arc_value near.events)) }
        ensures spans { IfOk result (λ near. AreNearSpans (map arc_value near.events) t near.spans) }
    {
        let found = self.index.near(alloc, t)?;
        let mut events = Vec::with_capacity(alloc, found.len())?;
        let mut spans = Vec::with_capacity(alloc, found.len())?;
        for span in &found {
            let place = events.len();
            events.push(Arc::try_clone(&self.events[span.place])?)?;
            spans.push(moved_to(span, place))?;
        }
        sort_by_layer(&mut spans);
        Ok(NearEvents {
            events: Items::from_vec(events),
            spans: Items::from_vec(spans),
        })
    }

    /// The ReadOrders of the live events, in the order in which they were accepted.
    pub fn orders(&self, alloc: Global) -> Mem<Items<u32>>
        ensures { IfOk result (λ orders. orders ≡ read_orders (events_of self.now)) }
    {
        let mut orders = Vec::with_capacity(alloc, self.events.len())?;
        for event in &self.events {
            orders.push(event.order)?;
        }
        Ok(Items::from_vec(orders))
    }
}

/// The span at another place.
fn moved_to(span: &EventSpan, place: usize) -> EventSpan
    ensures { result ≡ record span.now { place = place } }
{
    EventSpan { place, ..*span }
}
