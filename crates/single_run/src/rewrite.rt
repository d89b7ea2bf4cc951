//! A script written again.

ghost use Rattle.std.specs.Prelude.{◌≡◌, ◌≢◌, Ok};
ghost use Rattle.ass_script.specs.Ranges.{IsScript};
ghost use Rattle.ass_events.specs.LineLaws.{HasShortLines};
ghost use Rattle.track_write.specs.Texts.{IsWriteAnswer};
ghost use Rattle.single_run.specs.Outcomes.{ArePiecesShown, IsOrFault, IsShown, IsWriteCounted};
ghost use Rattle.single_run.specs.Outputs.{rewritten, written_status};
ghost use Rattle.single_run.specs.Works.{IsWriteTask};

use crate::shown::show;
use crate::work::WriteTask;
use ass_events::events_of;
use ass_io::Sink;
use ass_script::Script;
use run_status::{Status, Which};
use std::alloc::Global;
use track_write::{WriteRefusal, script_text, shifted};

/// The text of a script with the events of its lines so much later and so much earlier.
fn text_of(alloc: Global, write: &WriteTask, script: &Script) -> Result<Vec<u8>, WriteRefusal>
    requires write { IsWriteTask write.now }
    requires script { IsScript script.now }
    requires short { HasShortLines script.now }
    ensures { IsWriteAnswer (λ text. text.items) result (rewritten write.now script.now) }
{
    let events = events_of(alloc, script)?;
    let moved = shifted(alloc, events.as_slice(), write.later, write.earlier)?;
    script_text(alloc, script, moved.as_slice())
}

/// Writes a script again, and puts its text to the frames sink.
pub fn rewrite<F: Sink>(alloc: Global, write: &WriteTask, script: &Script, frames: &mut F) -> Status
    requires write { IsWriteTask write.now }
    requires script { IsScript script.now }
    requires short { HasShortLines script.now }
    ensures answered { IsOrFault Which.Frames (written_status (rewritten write.now script.now)) result }
    ensures shown { IsShown result (F.state frames.old).held (F.state frames.new).held (λ bytes. rewritten write.now script.now ≡ Ok bytes) }
    ensures pieces { ArePiecesShown Which.Frames result (λ bytes. rewritten write.now script.now ≡ Ok bytes) (F.state frames.old).asked
        (F.state frames.new).asked }
    ensures counted { IsWriteCounted result (F.state frames.old).faults (F.state frames.new).faults }
    ensures own { result ≢ Status.WriteFault Which.Report }
{
    match text_of(alloc, write, script) {
        Ok(text) => show(text.as_slice(), frames),
        Err(WriteRefusal::Unwritable(order, field)) => Status::Unwritable(order, field),
        Err(WriteRefusal::OutOfMemory) => Status::OutOfMemory,
    }
}
