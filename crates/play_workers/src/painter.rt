//! What a renderer does in a round.

ghost use Rattle.std.specs.Prelude.{◌≡◌, ◌<◌, ◌≤◌, ◌∷◌, ◌++◌, ℤ, List, [], true, IfOk, OnOk};
ghost use Rattle.std.specs.Result.{is_ok};
ghost use Rattle.ass_events.specs.Histories.{Entry};
ghost use Rattle.ass_num.specs.Limits.{IsWithin, max_instant};
ghost use Rattle.mask_caches.specs.Balance.{AreLater};
ghost use Rattle.renderer.specs.Frames.{IsFrameOf};
ghost use Rattle.renderer.specs.Holding.{HoldsJustTheFrame, HoldsTheSame, IsHomeFrame};
ghost use Rattle.renderer.specs.Passes.{IsPassOfRenderer};
ghost use Rattle.track_history.specs.Calls.{history_of};
ghost use Rattle.turn_cell.specs.Passes.{Follows};
ghost use Rattle.play_shares.specs.Instants.{instant_count, play_instant};
ghost use Rattle.play_shares.specs.Renderers.{painter_count};
ghost use Rattle.play_workers.specs.Asks.{IsFrameAsked, IsImageAsked, IsImageOfDraws};
ghost use Rattle.play_workers.specs.Limits.{max_rounds};
ghost use Rattle.play_workers.specs.Parts.{ArePainted};
ghost use Rattle.play_workers.specs.Stages.{IsPlayStage, play_on};

use crate::images::image_in;
use crate::stage::PlayStage;
use ass_num::{Items, Mem};
use play_shares::{instant_at, share_begins, share_ends};
use renderer::{Frame, RenderPass};
use run_words::image_form;
use std::alloc::Global;
use std::sync::Wait;
use std::thread::Threads;
use test_hook::{HookPoint, TestHook};

/// A frame: tried first, and rendered where the try had none.
fn frame_at<R: Wait, H: TestHook>(
    rt: &R,
    alloc: Global,
    stage: &PlayStage,
    t: i64,
    pass: RenderPass,
    hook: &H,
) -> (RenderPass, Mem<Frame>)
    requires stage { IsPlayStage stage.now }
    requires instant { IsWithin max_instant t }
    requires pass { IsPassOfRenderer stage.now.renderer pass }
    ensures pass { IsPassOfRenderer stage.now.renderer result.0 }
    ensures track { Follows pass.track result.0.track [] }
    ensures later { AreLater pass.caches result.0.caches }
    ensures frame { IfOk result.1 (IsFrameAsked stage.now.renderer pass result.0 (history_of result.0.track.seen) t stage.now.job.size) }
    ensures holds { HoldsJustTheFrame stage.now.renderer pass result.0 result.1 }
    ensures home { IfOk result.1 (IsHomeFrame stage.now.renderer) }
{
    stage.renderer.proof_kept(&pass);
    let size = &stage.job.size;
    stage
        .renderer
        .try_then_frame(rt, alloc, pass, t, size, hook)
}

/// The image of a frame as the play writes it, in the memory of a buffer.
fn image_of<R: Threads + Sync>(
    rt: &R,
    alloc: Global,
    stage: &PlayStage,
    frame: &Frame,
    buffer: Vec<u8>,
) -> Mem<Vec<u8>>
    requires stage { IsPlayStage stage.now }
    requires size { frame.now.size ≡ stage.now.job.size }
    ensures { (history : List Entry) (t : ℤ) → (is : IsFrameOf stage.now.renderer.script stage.now.renderer.fonts history t stage.now.job.size frame.now)
        → IfOk result (λ image. IsImageOfDraws (play_on stage.now) history t is.draws image.items) }
{
    let form = image_form(stage.job.format, stage.script.header().matrix);
    image_in(rt, alloc, frame, form, stage.job.bands, buffer)
}

/// The image of an instant, in the memory of a buffer.
fn paint_instant<R: Threads + Wait + Sync, H: TestHook>(
    rt: &R,
    alloc: Global,
    stage: &PlayStage,
    t: i64,
    buffer: Vec<u8>,
    pass: RenderPass,
    hook: &H,
) -> (RenderPass, Mem<Vec<u8>>)
    requires stage { IsPlayStage stage.now }
    requires instant { IsWithin max_instant t }
    requires pass { IsPassOfRenderer stage.now.renderer pass }
    ensures pass { IsPassOfRenderer stage.now.renderer result.0 }
    ensures track { Follows pass.track result.0.track [] }
    ensures later { AreLater pass.caches result.0.caches }
    ensures image { IfOk result.1 (λ image. IsImageAsked (play_on stage.now) stage.now.renderer pass result.0 (history_of result.0.track.seen) t image.items) }
    ensures holds { HoldsTheSame stage.now.renderer pass result.0 }
{
    let (pass, frame) = frame_at(rt, alloc, stage, t, pass, hook);
    match frame {
        Ok(frame) => {
            let image = image_of(rt, alloc, stage, &frame, buffer);
            let pass = stage.renderer.release(rt, pass, frame);
            hook.at(HookPoint::AfterFrame(t));
            (pass, image)
        }
        Err(refused) => (pass, Err(refused)),
    }
}

/// The image of the instant at a place, in the memory of a buffer.
fn image_at<R: Threads + Wait + Sync, H: TestHook>(
    rt: &R,
    alloc: Global,
    stage: &PlayStage,
    place: u64,
    buffer: Vec<u8>,
    pass: RenderPass,
    hook: &H,
) -> (RenderPass, Mem<Vec<u8>>)
    requires stage { IsPlayStage stage.now }
    requires place { place < instant_count stage.now.job }
    requires pass { IsPassOfRenderer stage.now.renderer pass }
    ensures pass { IsPassOfRenderer stage.now.renderer result.0 }
    ensures track { Follows pass.track result.0.track [] }
    ensures later { AreLater pass.caches result.0.caches }
    ensures image { IfOk result.1 (λ image. IsImageAsked (play_on stage.now) stage.now.renderer pass result.0 (history_of result.0.track.seen)
        (play_instant stage.now.job place) image.items) }
    ensures holds { HoldsTheSame stage.now.renderer pass result.0 }
{
    let t = match instant_at(&stage.job, place) {
        Some(t) => t,
        None => unreachable!(),
    };
    paint_instant(rt, alloc, stage, t, buffer, pass, hook)
}

/// Adds an image, where it was made.
fn add_image(images: &mut Items<Vec<u8>>, image: Mem<Vec<u8>>) -> Mem<()>
    ensures made { OnOk result (is_ok image ≡ true) }
    ensures added { OnOk result (IfOk image (λ made. images.new ≡ images.old ++ made ∷ [])) }
{
    images.push(image?)
}

/// The buffer of a written image, or a new one where there is none.
fn next_buffer(alloc: Global, written: &mut Vec<Vec<u8>>) -> Vec<u8> {
    match written.pop() {
        Some(buffer) => buffer,
        None => Vec::new(alloc),
    }
}

/// The images of a painter's instants of a round, one after another, in the memory of images that are written, as far as there are some.
pub fn paint_part<R: Threads + Wait + Sync, H: TestHook>(
    rt: &R,
    alloc: Global,
    stage: &PlayStage,
    round: usize,
    painter: usize,
    written: Vec<Vec<u8>>,
    pass: RenderPass,
    hook: &H,
) -> (RenderPass, Mem<Items<Vec<u8>>>)
    requires stage { IsPlayStage stage.now }
    requires small { round ≤ max_rounds }
    requires painter { painter < painter_count stage.now.job }
    requires pass { IsPassOfRenderer stage.now.renderer pass }
    ensures pass { IsPassOfRenderer stage.now.renderer result.0 }
    ensures track { Follows pass.track result.0.track [] }
    ensures later { AreLater pass.caches result.0.caches }
    ensures images { IfOk result.1 (ArePainted stage.now round painter pass result.0) }
    ensures holds { HoldsTheSame stage.now.renderer pass result.0 }
{
    let first = share_begins(&stage.job, round as u64, painter as u64);
    let end = share_ends(&stage.job, round as u64, painter as u64);
    let mut images = Items::new(alloc);
    let mut written = written;
    let mut pass = pass;
    for place in first..end {
        let buffer = next_buffer(alloc, &mut written);
        let (next, image) = image_at(rt, alloc, stage, place, buffer, pass, hook);
        pass = next;
        let added = add_image(&mut images, image);
        if let Err(refused) = added {
            return (pass, Err(refused));
        }
    }
    (pass, Ok(images))
}
