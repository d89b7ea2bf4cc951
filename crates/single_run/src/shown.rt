//! What the frames sink gets.

ghost use Rattle.std.specs.Prelude.{◌≡◌, ◌≢◌};
ghost use Rattle.single_run.specs.Outcomes.{ArePiecesShown, IsOrFault, IsShown, IsWriteCounted};
ghost use Rattle.run_status.specs.declared.status.Status.TheVariants.{Done as done_status};

use ass_io::{Put, Sink};
use run_status::{Status, Which};

/// Puts an image or a text to the frames sink.
#[tactic(auto, using(crate::proofs::Runs::shown_whole, crate::proofs::Runs::shown_part, crate::proofs::Runs::shown_kept))]
pub fn show<F: Sink>(bytes: &[u8], frames: &mut F) -> Status
    ensures answered { IsOrFault Which.Frames done_status result }
    ensures shown { IsShown result (F.state frames.old).held (F.state frames.new).held (λ shown. shown ≡ bytes.now) }
    ensures pieces { ArePiecesShown Which.Frames result (λ shown. shown ≡ bytes.now) (F.state frames.old).asked (F.state frames.new).asked }
    ensures counted { IsWriteCounted result (F.state frames.old).faults (F.state frames.new).faults }
    ensures own { result ≢ Status.WriteFault Which.Report }
{
    match frames.put(bytes) {
        Put::Done => Status::Done,
        Put::Failed => Status::WriteFault(Which::Frames),
        Put::OutOfMemory => Status::OutOfMemory,
    }
}
