//! Calls that try for a frame and don't tell who makes a mask.
ghost use Rattle.std.specs.Prelude.{◌≡◌, ◌≤◌, [], IfOk};
ghost use Rattle.ass_num.specs.Limits.{IsFrameSize, IsWithin, max_instant};
ghost use Rattle.turn_cell.specs.Passes.{Follows};
ghost use Rattle.renderer.specs.Holding.{HoldsJustTheFrame, IsHomeFrame};
ghost use Rattle.renderer.specs.OneHistory.{ShowsOneHistory};
ghost use Rattle.renderer.specs.Passes.{IsPassOfRenderer};
ghost use Rattle.renderer.specs.Untold.{IsTriedUntold, IsTriedWithinUntold, untold_refusal};

use crate::Frame;
use crate::passes::RenderPass;
use crate::renderer::Renderer;
use crate::trying::{Again, TryRefusal};
use ass_num::Size;
use std::alloc::Global;

/// The refusal of a call that doesn't tell whether a mask is being made.
fn untold(refusal: TryRefusal) -> TryRefusal
    ensures { result ≡ untold_refusal refusal }
{
    match refusal {
        TryRefusal::Again(again) => match again {
            Again::Making(place) => TryRefusal::Again(Again::NotReady(place)),
            Again::Track => TryRefusal::Again(Again::Track),
            Again::Cache => TryRefusal::Again(Again::Cache),
            Again::NotReady(place) => TryRefusal::Again(Again::NotReady(place)),
            Again::PinsFull(place) => TryRefusal::Again(Again::PinsFull(place)),
        },
        TryRefusal::OutOfMemory => TryRefusal::OutOfMemory,
    }
}

impl Renderer {
    /// What the track shows at an instant, in milliseconds, in a frame of a size, where all its masks are ready. It makes no mask and
    /// waits for nobody. A refusal adds no entry to any history and holds nothing. A mask that is being made isn't ready:
    /// [`Renderer::try_frame_telling`] tells it from one that nobody makes.
    pub fn try_frame(
        &self,
        alloc: Global,
        pass: RenderPass,
        t: i64,
        size: &Size,
    ) -> (RenderPass, Result<Frame, TryRefusal>)
        requires pass { IsPassOfRenderer self.now pass }
        requires instant { IsWithin max_instant t }
        requires size { IsFrameSize size.now }
        ensures pass { IsPassOfRenderer self.now result.0 }
        ensures history { IfOk result.1 (ShowsOneHistory self.now pass result.0 t size.now) }
        ensures tried { IsTriedUntold self.now pass result.0 t size.now result.1 }
        ensures holds { HoldsJustTheFrame self.now pass result.0 result.1 }
        ensures home { IfOk result.1 (IsHomeFrame self.now) }
    {
        let (pass, told) = self.try_frame_telling(alloc, pass, t, size);
        match told {
            Ok(frame) => (pass, Ok(frame)),
            Err(refusal) => (pass, Err(untold(refusal))),
        }
    }

    /// What the track shows at an instant, in milliseconds, in a frame of a size, by at most so many tries of [`Renderer::try_frame`], at
    /// least one. It tries again while there is a cause to, and answers what the last try came to. It pauses between tries, makes no
    /// mask and waits for nobody.
    pub fn frame_within(
        &self,
        alloc: Global,
        pass: RenderPass,
        t: i64,
        size: &Size,
        tries: u32,
    ) -> (RenderPass, Result<Frame, TryRefusal>)
        requires pass { IsPassOfRenderer self.now pass }
        requires instant { IsWithin max_instant t }
        requires size { IsFrameSize size.now }
        requires tries { 1 ≤ tries }
        ensures pass { IsPassOfRenderer self.now result.0 }
        ensures track { Follows pass.track result.0.track [] }
        ensures tried { IsTriedWithinUntold self.now t size.now pass result.0 tries result.1 }
        ensures holds { HoldsJustTheFrame self.now pass result.0 result.1 }
        ensures home { IfOk result.1 (IsHomeFrame self.now) }
    {
        let (pass, told) = self.frame_within_telling(alloc, pass, t, size, tries);
        match told {
            Ok(frame) => (pass, Ok(frame)),
            Err(refusal) => (pass, Err(untold(refusal))),
        }
    }
}
