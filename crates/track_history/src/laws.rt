//! Laws of a track's calls, and of what is near, for the crates above. Each function does nothing: its contract is the law.

ghost use Rattle.std.specs.Prelude.{◌≡◌, ◌≤◌, ℕ, ℤ, List, [], length, map, All, Contains, Option, Some, Result, option_to_list, slice_get};
ghost use Rattle.turn_cell.specs.Passes.{Follows};
ghost use Rattle.ass_events.specs.declared.event.Event.{Event};
ghost use Rattle.ass_events.specs.Events.{event_of};
ghost use Rattle.ass_events.specs.Histories.{Entry, Chunk, HaveOwnOrders, IsHistory, live, max_live};
ghost use Rattle.ass_events.specs.NearEvents.{AreNear, span_of};
ghost use Rattle.track_history.specs.declared.answers.TrackEntry.{TrackEntry};
ghost use Rattle.track_history.specs.declared.answers.Feed.{Feed};
ghost use Rattle.track_history.specs.declared.answers.Feed.TheVariants.{Repeated};
ghost use Rattle.track_history.specs.declared.answers.Flushed.{Flushed};
ghost use Rattle.track_history.specs.declared.answers.LookRefusal.{LookRefusal};
ghost use Rattle.track_history.specs.declared.scene.Scene.{Scene};
ghost use Rattle.track_history.specs.Answers.{chunk_entry, entry_of, feed_answer, flushed_entry};
ghost use Rattle.track_history.specs.ShortEvents.{IsShortEvent, HaveShortEvents};
ghost use Rattle.track_history.specs.Calls.{IsFed, IsFlushed, IsTriedLook, IsTurn, TrackView};

/// After each call the pass goes on as one of a turn cell, with what the call gave.
pub fn calls_follow()
    ensures turned { (pass later : TrackView) (entry : Option Entry) → IsTurn pass later entry
        → (given : List TrackEntry) × (map entry_of given ≡ option_to_list entry) × Follows pass later given }
    ensures flushed { (pass later : TrackView) (answer : Flushed) → IsFlushed pass later answer
        → (given : List TrackEntry) × (map entry_of given ≡ option_to_list (flushed_entry answer)) × Follows pass later given }
    ensures fed { (bytes : List ℕ) (start duration : ℤ) (pass later : TrackView) (answer : Feed)
        → IsFed bytes start duration pass later answer → (given : List TrackEntry)
        × (map entry_of given ≡ option_to_list (chunk_entry (event_of bytes start duration) answer)) × Follows pass later given }
    ensures tried { (pass later : TrackView) (t : ℤ) (answer : Result Scene LookRefusal) → IsTriedLook pass t later answer → Follows pass later [] }
{}

/// What is near an instant is one list.
pub fn one_near()
    ensures { (events a b : List Event) (t : ℤ) → AreNear span_of events t a → AreNear span_of events t b → a ≡ b }
{}

/// Where a feed answers `Repeated`, the entry at that place is a live event with this ReadOrder.
pub fn repeated_is_live()
    ensures { (history : List Entry) (event : Event) (place : ℕ) → feed_answer history event ≡ Repeated place
        → (other : Event) × (slice_get history place ≡ Some (Chunk other)) × (other.order ≡ event.order) × Contains (live history) other }
{}

/// The live events of a track's history are short.
pub fn live_is_short()
    ensures { (history : List Entry) → HaveShortEvents history → All IsShortEvent (live history) }
{}

/// What is near an instant in a track's history are live events with different ReadOrders, at most as many as can be live, and short.
pub fn near_is_live()
    ensures live { (history : List Entry) (near : List Event) (t : ℤ) → AreNear span_of (live history) t near → All (Contains (live history)) near }
    ensures orders { (history : List Entry) (near : List Event) (t : ℤ) → IsHistory history → AreNear span_of (live history) t near → HaveOwnOrders near }
    ensures few { (history : List Entry) (near : List Event) (t : ℤ) → IsHistory history → AreNear span_of (live history) t near → length near ≤ max_live }
    ensures short { (history : List Entry) (near : List Event) (t : ℤ) → HaveShortEvents history → AreNear span_of (live history) t near
        → All IsShortEvent near }
{}
