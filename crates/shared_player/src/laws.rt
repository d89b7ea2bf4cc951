//! Laws of seats, for the crates above. Each function does nothing: its contract is the law.

ghost use Rattle.std.specs.Prelude.{ℕ, ℤ, List, Option, Result};
ghost use Rattle.ass_events.specs.declared.event.Event.{Event};
ghost use Rattle.ass_num.specs.declared.memory.OutOfMemory.{OutOfMemory};
ghost use Rattle.shared_player.specs.Shown.{SeesHistory};
ghost use Rattle.shared_player.specs.Tries.{IsLineTried, IsLookRefused, IsLostTry};
ghost use Rattle.track_history.specs.Calls.{IsFed, IsFlushed, IsOffered, TrackView};
ghost use Rattle.track_history.specs.declared.answers.Feed.{Feed};
ghost use Rattle.track_history.specs.declared.answers.Flushed.{Flushed};
ghost use Rattle.track_history.specs.declared.answers.LookRefusal.{LookRefusal};
ghost use Rattle.track_history.specs.declared.answers.TurnOut.{TurnOut};
ghost use Rattle.turn_cell.specs.History.{IsPrefix};

/// What a seat has seen of the one history only grows, whatever it calls and whatever the answer is: what it saw before is
/// where it was, and what is new stands behind it.
pub fn one_history()
    ensures offered { (event : Event) (pass after : TrackView) (answer : Feed) → IsOffered event pass after answer → IsPrefix pass.seen after.seen }
    ensures fed { (bytes : List ℕ) (start duration : ℤ) (pass after : TrackView) (answer : Feed)
        → IsFed bytes start duration pass after answer → IsPrefix pass.seen after.seen }
    ensures flushed { (pass after : TrackView) (answer : Flushed) → IsFlushed pass after answer → IsPrefix pass.seen after.seen }
    ensures line { (count : ℕ) (event : Option Event) (pass after : TrackView) (answer : Result (Result ℕ OutOfMemory) TurnOut)
        → IsLineTried count event pass after answer → IsPrefix pass.seen after.seen }
    ensures shown { (pass after : TrackView) (entries : ℕ) → SeesHistory pass after entries → IsPrefix pass.seen after.seen }
    ensures refused { (pass after : TrackView) (refusal : LookRefusal) → IsLookRefused pass after refusal → IsPrefix pass.seen after.seen }
    ensures lost { (pass after : TrackView) → IsLostTry pass after → IsPrefix pass.seen after.seen }
{}
