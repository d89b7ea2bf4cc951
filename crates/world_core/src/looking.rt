//! The track, and what actors see of it.
ghost use Rattle.std.specs.Prelude.{◌≡◌, ◌≤◌, List, IfOk, Ok, OnErr, length};
ghost use Rattle.ass_events.specs.Events.{event_of};
ghost use Rattle.ass_events.specs.Histories.{Entry, live};
ghost use Rattle.ass_events.specs.Histories as histories;
ghost use Rattle.ass_events.specs.Ranges.{IsEvent, text_bytes};
ghost use Rattle.ass_num.specs.Limits.{IsWithin, max_instant, max_text_bytes};
ghost use Rattle.frame_view.specs.FrameViews.{plain_frame};
ghost use Rattle.picture_plan.specs.Pictures.{AreDraws};
ghost use Rattle.text_layout.specs.Settings.{IsSetting};
ghost use Rattle.track_history.specs.Answers.{flush_answer};
ghost use Rattle.track_history.specs.Tellings.{IsSound, Tells};
ghost use Rattle.world_core.specs.Replies.{IsFedReply};
ghost use Rattle.world_core.specs.Steps as rule;
ghost use Rattle.world_core.specs.Tellings.{TellsLook};

use crate::steps::Reply;
use ass_events::{Chunk, ChunkRefusal, Event, read_chunk};
use ass_num::{Mem, OutOfMemory, Size};
use mask_keys::Plan;
use picture_plan::plan_of_spans;
use std::alloc::Global;
use std::sync::Arc;
use text_layout::Setting;
use track_history::{Feed, Flushed, LiveEvents};

/// The last look of an actor: how many entries it saw, and the size and the draws of its picture.
#[derive(Drop)]
pub(crate) struct ActorLook {
    pub(crate) n: usize,
    pub(crate) size: Size,
    pub(crate) plan: Plan,
}

/// Offers the event of a chunk.
pub(crate) fn feed(alloc: Global, track: &mut LiveEvents, chunk: &Chunk) -> Mem<Reply>
    requires sound { IsSound track.old }
    requires short { length chunk.now.bytes ≤ max_text_bytes }
    ensures sound { IsSound track.new }
    ensures reply { (history : List Entry) → Tells track.old history
        → IfOk result (λ r. IsFedReply history (event_of chunk.now.bytes chunk.now.start chunk.now.duration) r) }
    ensures history { (history : List Entry) → Tells track.old history
        → IfOk result (λ _. Tells track.new (rule.after_chunk history (event_of chunk.now.bytes chunk.now.start chunk.now.duration))) }
    ensures err { (history : List Entry) → Tells track.old history → OnErr result (Tells track.new history) }
{
    match read_chunk(alloc, chunk.bytes.as_slice(), chunk.start, chunk.duration) {
        Ok(event) => feed_event(alloc, track, event),
        Err(ChunkRefusal::Malformed(field, place)) => Ok(Reply::Fed(Feed::Malformed(field, place))),
        Err(ChunkRefusal::OutOfMemory) => Err(OutOfMemory),
    }
}

fn feed_event(alloc: Global, track: &mut LiveEvents, event: Event) -> Mem<Reply>
    requires sound { IsSound track.old }
    requires event { IsEvent event }
    requires short { text_bytes event ≤ max_text_bytes }
    ensures sound { IsSound track.new }
    ensures reply { (history : List Entry) → Tells track.old history → IfOk result (λ r. IsFedReply history (Ok event) r) }
    ensures history { (history : List Entry) → Tells track.old history → IfOk result (λ _. Tells track.new (histories.after history event)) }
    ensures err { (history : List Entry) → Tells track.old history → OnErr result (Tells track.new history) }
{
    let event = Arc::new(alloc, event)?;
    match track.feed(alloc, &event) {
        Feed::OutOfMemory => Err(OutOfMemory),
        answer => Ok(Reply::Fed(answer)),
    }
}

/// Drops all live events.
pub(crate) fn flush(track: &mut LiveEvents) -> Flushed
    requires { IsSound track.old }
    ensures sound { IsSound track.new }
    ensures answer { (history : List Entry) → Tells track.old history → result ≡ flush_answer history }
    ensures history { (history : List Entry) → Tells track.old history → Tells track.new (histories.flushed history) }
{
    track.flush()
}

/// The draws of what the track shows at an instant.
pub(crate) fn plan_at(alloc: Global, setting: &Setting<'_>, track: &LiveEvents, t: i64) -> Mem<Plan>
    requires setting { IsSetting setting.now }
    requires sound { IsSound track.now }
    requires history { (history : List Entry) × Tells track.now history }
    requires instant { IsWithin max_instant t }
    ensures { (history : List Entry) → Tells track.now history
        → IfOk result (λ plan. AreDraws setting.now.script setting.now.fonts (live history) t setting.now.frame plan.draws) }
{
    let near = track.near(alloc, t)?;
    let spans = near.spans.as_slice();
    plan_of_spans(alloc, setting, near.events.as_slice(), spans, t)
}

/// A look at the track.
pub(crate) fn look_at(
    alloc: Global,
    setting: &Setting<'_>,
    track: &LiveEvents,
    t: i64,
) -> Mem<ActorLook>
    requires setting { IsSetting setting.now }
    requires plain { setting.now.frame ≡ plain_frame setting.now.frame.size }
    requires sound { IsSound track.now }
    requires history { (history : List Entry) × Tells track.now history }
    requires instant { IsWithin max_instant t }
    ensures { (history : List Entry) → Tells track.now history
        → IfOk result (λ kept. TellsLook setting.now.script setting.now.fonts kept (record { history = history; instant = t; size = setting.now.frame.size })) }
{
    let plan = plan_at(alloc, setting, track, t)?;
    Ok(ActorLook {
        n: track.entries(),
        size: setting.frame.size,
        plan,
    })
}
