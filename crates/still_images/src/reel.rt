//! What is shown from instant to instant, and what is put of it.

ghost use Rattle.std.specs.Prelude.{◌≡◌, ◌⊎◌, [], ◌++◌, ◌∷◌, ◌≤◌, IfErr, IfOk, IfSome, IsTrue, OnOk, Some};
ghost use Rattle.ass_num.specs.Limits.{IsFrameSize, max_instant};
ghost use Rattle.still_images.specs.Boxes.{HasPixels, IsOnFrame};
ghost use Rattle.still_images.specs.Formats.{pixel_bytes};
ghost use Rattle.still_images.specs.Puts.{GotPrefix, GotWhole};
ghost use Rattle.still_images.specs.Reels.{IsPartAfter, IsPictureAdded, IsPictureCut, IsReelFit, entries_of_part};
ghost use Rattle.still_images.specs.Stills.{image_of_part};

use crate::boxes::{box_of, whole_box};
use crate::fault::StillsFault;
use crate::image::still_image;
use ass_io::{Put, Sink};
use ass_num::{Items, Mem, OutOfMemory};
use frame_change::Changed;
use mask_keys::Plan;
use run_words::StillsJob;
use std::alloc::Global;
use still_lists::StillEntry;

/// Draws, and the pixels that they make.
#[derive(Drop)]
pub struct Shown {
    pub plan: Plan,
    pub pixels: Vec<u8>,
}

/// What is shown last, and what a list tells of the images that were put.
#[derive(Drop)]
pub struct Reel {
    pub shown: Option<Shown>,
    pub index: Items<StillEntry>,
}

/// Whether the draws of plans are the same.
fn have_same_draws(a: &Plan, b: &Plan) -> bool
    ensures { IsTrue result → a.now.draws ≡ b.now.draws }
{
    *a == *b
}

/// Whether these draws are shown.
pub fn is_shown(shown: &Option<Shown>, plan: &Plan) -> bool
    ensures { IsTrue result → (last : Shown) × (shown.now ≡ Some last) × (last.plan.draws ≡ plan.now.draws) }
{
    match shown {
        Some(last) => have_same_draws(&last.plan, plan),
        None => false,
    }
}

/// The box of what a picture changes; `None` where nothing does.
fn changed_part(job: &StillsJob, shown: &Option<Shown>, pixels: &[u8]) -> Option<Changed>
    requires size { IsFrameSize job.now.size }
    requires shown { IfSome shown.now (λ last. HasPixels (pixel_bytes job.now.format) job.now.size last.pixels.items) }
    requires pixels { HasPixels (pixel_bytes job.now.format) job.now.size pixels.now }
    ensures part { IsPartAfter job.now shown.now pixels.now result }
    ensures within { IfSome result (IsOnFrame job.now.size) }
{
    match shown {
        None => Some(whole_box(&job.size)),
        Some(last) => box_of(job.format, &job.size, last.pixels.as_slice(), pixels),
    }
}

/// Puts an image.
#[tactic(auto, using(crate::proofs::PutLemmas::put_whole, crate::proofs::PutLemmas::put_failed, crate::proofs::PutLemmas::put_wanting))]
fn put<F: Sink>(image: &[u8], frames: &mut F) -> Result<(), StillsFault>
    ensures whole { OnOk result (GotWhole (image.now ∷ []) (F.state frames.old) (F.state frames.new)) }
    ensures part { IfErr result (λ fault. GotPrefix fault (image.now ∷ []) (F.state frames.old) (F.state frames.new)) }
{
    match frames.put(image) {
        Put::Done => Ok(()),
        Put::Failed => Err(StillsFault::WriteFault),
        Put::OutOfMemory => Err(StillsFault::OutOfMemory),
    }
}

/// The image of a picture that changes a part, shown from the instant `t` at a place on, when `n` events were known. It is added to
/// the list.
fn add_image(
    alloc: Global,
    job: &StillsJob,
    n: usize,
    place: u64,
    t: u64,
    part: &Changed,
    pixels: &[u8],
    reel: &mut Reel,
) -> Mem<Vec<u8>>
    requires pixels { HasPixels (pixel_bytes job.now.format) job.now.size pixels.now }
    requires part { IsOnFrame job.now.size part.now }
    requires instant { t ≤ max_instant }
    ensures image { IfOk result (λ image. image.items ≡ image_of_part job.now part.now pixels.now t n) }
    ensures index { OnOk result (reel.new.index ≡ reel.old.index ++ entries_of_part place t (Some part.now)) }
{
    let image = still_image(alloc, job, part, pixels, t, n)?;
    reel.index.push(StillEntry {
        place,
        t,
        part: *part,
    })?;
    Ok(image)
}

/// Puts such an image.
fn put_still<F: Sink>(
    alloc: Global,
    job: &StillsJob,
    n: usize,
    place: u64,
    t: u64,
    part: &Changed,
    pixels: &[u8],
    reel: &mut Reel,
    frames: &mut F,
) -> Result<(), StillsFault>
    requires pixels { HasPixels (pixel_bytes job.now.format) job.now.size pixels.now }
    requires part { IsOnFrame job.now.size part.now }
    requires instant { t ≤ max_instant }
    ensures whole { OnOk result (GotWhole (image_of_part job.now part.now pixels.now t n ∷ []) (F.state frames.old) (F.state frames.new)) }
    ensures index { OnOk result (reel.new.index ≡ reel.old.index ++ entries_of_part place t (Some part.now)) }
    ensures part { IfErr result (λ fault. GotPrefix fault [] (F.state frames.old) (F.state frames.new)
        ⊎ GotPrefix fault (image_of_part job.now part.now pixels.now t n ∷ []) (F.state frames.old) (F.state frames.new)) }
{
    match add_image(alloc, job, n, place, t, part, pixels, reel) {
        Ok(image) => put(image.as_slice(), frames),
        Err(OutOfMemory) => Err(StillsFault::OutOfMemory),
    }
}

/// Shows a picture from the instant `t` at a place on, when `n` events were known, and puts its image where it changes something.
pub fn show_picture<F: Sink>(
    alloc: Global,
    job: &StillsJob,
    n: usize,
    place: u64,
    t: u64,
    shown: Shown,
    reel: &mut Reel,
    frames: &mut F,
) -> Result<(), StillsFault>
    requires size { IsFrameSize job.now.size }
    requires pixels { HasPixels (pixel_bytes job.now.format) job.now.size shown.pixels.items }
    requires last { IsReelFit job.now reel.old }
    requires instant { t ≤ max_instant }
    ensures whole { OnOk result (IsPictureAdded job.now n place t shown reel.old reel.new (F.state frames.old) (F.state frames.new)) }
    ensures part { IfErr result (λ fault. IsPictureCut job.now n t shown reel.old fault (F.state frames.old) (F.state frames.new)) }
{
    if let Some(part) = changed_part(job, &reel.shown, shown.pixels.as_slice()) {
        put_still(
            alloc,
            job,
            n,
            place,
            t,
            &part,
            shown.pixels.as_slice(),
            reel,
            frames,
        )?;
    }
    reel.shown = Some(shown);
    Ok(())
}
