//! What came of a round.

ghost use Rattle.std.specs.Prelude.{◌≡◌, ◌≤◌, ◌↔◌, sum_by, All, IsTrue};
ghost use Rattle.std.specs.List.{flat_map};
ghost use Rattle.play_workers.specs.Parts.{IsFine, images_by, painted_bytes, told_repeats};
ghost use Rattle.play_workers.specs.declared.worker.Worker.{Worker};
ghost use Rattle.play_rounds.specs.Outputs.{ArePut};

use ass_io::{Put, Sink};
use play_workers::{Outcome, Worker};

/// Whether memory ran out nowhere.
pub fn are_fine(workers: &[Worker]) -> bool
    ensures { IsTrue result ↔ All (λ (w : Worker). IsFine w.outcome) workers.now }
{
    for worker in workers {
        if !worker.outcome.is_fine() {
            return false;
        }
    }
    true
}

/// How many events that were offered in a round were there already.
pub fn count_repeated(workers: &[Worker]) -> usize
    requires { sum_by (λ (w : Worker). told_repeats w.outcome) workers.now ≤ u32.MAX }
    ensures { result ≡ sum_by (λ (w : Worker). told_repeats w.outcome) workers.now }
{
    let mut count = 0;
    for worker in workers {
        count += worker.outcome.repeated();
    }
    count
}

/// Puts the images of a round, in the order of the workers, by as many puts as there are.
pub fn put_images<F: Sink>(workers: &[Worker], frames: &mut F) -> Put
    ensures { ArePut (flat_map (λ (w : Worker). images_by w.outcome) workers.now) result (F.state frames.old) (F.state frames.new) }
{
    for worker in workers {
        match put_outcome(&worker.outcome, frames) {
            Put::Done => {}
            other => return other,
        }
    }
    Put::Done
}

/// Puts the images of an outcome, if it has some.
fn put_outcome<F: Sink>(outcome: &Outcome, frames: &mut F) -> Put
    ensures { ArePut (images_by outcome.now) result (F.state frames.old) (F.state frames.new) }
{
    match outcome {
        Outcome::Shown(images) => put_each(images.as_slice(), frames),
        Outcome::Idle | Outcome::Fed(_) | Outcome::OutOfMemory => Put::Done,
    }
}

/// Puts images in order, by as many puts as there are.
fn put_each<F: Sink>(images: &[Vec<u8>], frames: &mut F) -> Put
    ensures { ArePut (painted_bytes images.now) result (F.state frames.old) (F.state frames.new) }
{
    for image in images {
        match frames.put(image.as_slice()) {
            Put::Done => {}
            other => return other,
        }
    }
    Put::Done
}
