//! Calls that try so often, and wait for nobody.
ghost use Rattle.std.specs.Prelude.{◌≡◌, ◌+◌, ◌≤◌, [], length, IfOk, IsOk, OnErr};
ghost use Rattle.ass_events.specs.Events.{event_of};
ghost use Rattle.ass_num.specs.Limits.{IsFrameSize, IsWithin, max_instant, max_text_bytes};
ghost use Rattle.turn_cell.specs.Passes.{Follows};
ghost use Rattle.track_history.specs.Calls.{IsFed};
ghost use Rattle.renderer.specs.Holding.{HoldsJustTheFrame, IsHomeFrame};
ghost use Rattle.renderer.specs.Passes.{IsPassOfRenderer};
ghost use Rattle.renderer.specs.Within.{IsTriedWithin};

use crate::Frame;
use crate::passes::RenderPass;
use crate::renderer::Renderer;
use crate::trying::TryRefusal;
use ass_num::Size;
use crossbeam_utils::Backoff;
use std::alloc::Global;
use track_history::{Feed, TurnOut};

impl Renderer {
    /// Offers the event of a chunk as [`Renderer::feed`] does, where the turn of the track is had within so many tries, at least one.
    /// Else these tries are lost, and nothing is done. It pauses between tries, and waits for nobody.
    pub fn feed_within(
        &self,
        alloc: Global,
        pass: RenderPass,
        chunk: &[u8],
        start: i64,
        duration: i64,
        tries: u32,
    ) -> (RenderPass, Result<Feed, TurnOut>)
        requires pass { IsPassOfRenderer self.now pass }
        requires short { length chunk.now ≤ max_text_bytes }
        requires tries { 1 ≤ tries }
        ensures pass { IsPassOfRenderer self.now result.0 }
        ensures fed { IfOk result.1 (IsFed chunk.now start duration pass.track result.0.track) }
        ensures event { OnErr result.1 (IsOk (event_of chunk.now start duration)) }
        ensures out { OnErr result.1 (result.0.track ≡ record pass.track { lost = pass.track.lost + tries }) }
        ensures caches { result.0.caches ≡ pass.caches }
    {
        let RenderPass { track, caches } = pass;
        let (track, fed) = self
            .track
            .feed_within(alloc, track, chunk, start, duration, tries);
        let pass = RenderPass { track, caches };
        (pass, fed)
    }

    /// What the track shows at an instant, in milliseconds, in a frame of a size, by at most so many tries of
    /// [`Renderer::try_frame_telling`], at least one. It tries again while there is a cause to, and answers what the last try came to.
    /// It pauses between tries, makes no mask and waits for nobody.
    pub fn frame_within_telling(
        &self,
        alloc: Global,
        pass: RenderPass,
        t: i64,
        size: &Size,
        tries: u32,
    ) -> (RenderPass, Result<Frame, TryRefusal>)
        requires pass { IsPassOfRenderer self.now pass }
        requires instant { IsWithin max_instant t }
        requires size { IsFrameSize size.now }
        requires tries { 1 ≤ tries }
        ensures pass { IsPassOfRenderer self.now result.0 }
        ensures track { Follows pass.track result.0.track [] }
        ensures tried { IsTriedWithin self.now t size.now pass result.0 tries result.1 }
        ensures holds { HoldsJustTheFrame self.now pass result.0 result.1 }
        ensures home { IfOk result.1 (IsHomeFrame self.now) }
    {
        let backoff = Backoff::new();
        let mut waiting = pass;
        for _refused in 0..tries - 1 {
            let (pass, tried) = self.try_frame_telling(alloc, waiting, t, size);
            match tried {
                Ok(frame) => return (pass, Ok(frame)),
                Err(refusal) => match refusal {
                    TryRefusal::Again(_) => waiting = pass,
                    TryRefusal::OutOfMemory => return (pass, Err(TryRefusal::OutOfMemory)),
                },
            }
            backoff.snooze();
        }
        self.try_frame_telling(alloc, waiting, t, size)
    }
}
