//! What a feeder does in a round.

ghost use Rattle.std.specs.Prelude.{◌≡◌, ◌<◌, ◌≤◌, ◌∷◌, [], length, All, IfOk, OnErr};
ghost use Rattle.std.specs.Arc.{arc_value};
ghost use Rattle.renderer.specs.Passes.{IsPassOfRenderer};
ghost use Rattle.play_model.specs.Feeding.{HasMemory, repeats as repeats_of};
ghost use Rattle.play_model.specs.Plays.{events_at};
ghost use Rattle.play_workers.specs.Limits.{max_rounds};
ghost use Rattle.play_workers.specs.Offers.{AreEventsFed, HasGiven};
ghost use Rattle.play_workers.specs.Parts.{IsBatchFed};
ghost use Rattle.play_workers.specs.Stages.{IsPlayStage};

use crate::stage::PlayStage;
use ass_events::{ChunkRefusal, chunk_of_line};
use ass_num::{Mem, OutOfMemory};
use play_shares::offers;
use renderer::RenderPass;
use std::alloc::Global;
use std::sync::Wait;
use test_hook::{HookPoint, TestHook};
use track_history::Feed;

/// How many events that were there already an answer tells of. It is an error if memory ran out.
fn repeats(answer: Feed) -> Mem<usize>
    ensures counted { IfOk result (λ more. (more ≡ repeats_of answer) × HasMemory answer) }
    ensures wanting { OnErr result (answer ≡ Feed.OutOfMemory) }
    ensures few { IfOk result (λ more. more ≤ 1) }
{
    match answer {
        Feed::Accepted(_) | Feed::Malformed(_, _) | Feed::Full(_) => Ok(0),
        Feed::Repeated(_) => Ok(1),
        Feed::OutOfMemory => Err(OutOfMemory),
    }
}

/// Offers the event of a Dialogue line, where it gives one, and answers whether it was there already.
fn feed_line<R: Wait, H: TestHook>(
    rt: &R,
    alloc: Global,
    stage: &PlayStage,
    line: usize,
    pass: RenderPass,
    hook: &H,
) -> (RenderPass, Mem<usize>)
    requires stage { IsPlayStage stage.now }
    requires line { line < length stage.now.good }
    requires pass { IsPassOfRenderer stage.now.renderer pass }
    ensures pass { IsPassOfRenderer stage.now.renderer result.0 }
    ensures caches { result.0.caches ≡ pass.caches }
    ensures few { IfOk result.1 (λ more. more ≤ 1) }
    ensures fed { HasGiven pass.track result.0.track (AreEventsFed pass.track result.0.track (events_at (arc_value stage.now.script) (line ∷ [])) result.1) }
{
    let chunk = match chunk_of_line(alloc, &stage.script, line) {
        Ok(chunk) => chunk,
        Err(ChunkRefusal::Malformed(_, _)) => return (pass, Ok(0)),
        Err(ChunkRefusal::OutOfMemory) => return (pass, Err(OutOfMemory)),
    };
    let bytes = chunk.bytes.as_slice();
    let (pass, answer) = stage
        .renderer
        .feed(rt, alloc, pass, bytes, chunk.start, chunk.duration);
    hook.at(HookPoint::AfterFeed(line as u32));
    (pass, repeats(answer))
}

/// Offers the events of lines in order, and counts those that were there already.
fn feed_lines<R: Wait, H: TestHook>(
    rt: &R,
    alloc: Global,
    stage: &PlayStage,
    lines: &[usize],
    pass: RenderPass,
    hook: &H,
) -> (RenderPass, Mem<usize>)
    requires stage { IsPlayStage stage.now }
    requires lines { All (λ line. line < length stage.now.good) lines.now }
    requires pass { IsPassOfRenderer stage.now.renderer pass }
    ensures pass { IsPassOfRenderer stage.now.renderer result.0 }
    ensures caches { result.0.caches ≡ pass.caches }
    ensures few { IfOk result.1 (λ repeated. repeated ≤ length lines.now) }
    ensures fed { HasGiven pass.track result.0.track (AreEventsFed pass.track result.0.track (events_at (arc_value stage.now.script) lines.now) result.1) }
{
    let mut repeated = 0;
    let mut pass = pass;
    for line in lines {
        let (next, more) = feed_line(rt, alloc, stage, *line, pass, hook);
        pass = next;
        match more {
            Ok(more) => repeated += more,
            Err(refused) => return (pass, Err(refused)),
        }
    }
    (pass, Ok(repeated))
}

/// Offers what the feeder of a number has for a round.
pub fn feed_part<R: Wait, H: TestHook>(
    rt: &R,
    alloc: Global,
    stage: &PlayStage,
    round: usize,
    feeder: usize,
    pass: RenderPass,
    hook: &H,
) -> (RenderPass, Mem<usize>)
    requires stage { IsPlayStage stage.now }
    requires feeder { feeder < stage.now.job.feeders }
    requires small { round ≤ max_rounds }
    requires pass { IsPassOfRenderer stage.now.renderer pass }
    ensures pass { IsPassOfRenderer stage.now.renderer result.0 }
    ensures caches { result.0.caches ≡ pass.caches }
    ensures fed { HasGiven pass.track result.0.track (IsBatchFed stage.now round feeder pass result.0 result.1) }
{
    match offers(alloc, &stage.job, stage.good.as_slice(), round, feeder) {
        Ok(lines) => feed_lines(rt, alloc, stage, lines.as_slice(), pass, hook),
        Err(refused) => (pass, Err(refused)),
    }
}
