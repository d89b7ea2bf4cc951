//! Only what changes.

ghost use Rattle.std.specs.Prelude.{Ok};
ghost use Rattle.ass_events.specs.LineLaws.{HasShortLines};
ghost use Rattle.ass_script.specs.Ranges.{IsScript};
ghost use Rattle.text_layout.specs.Fonts.{IsLayoutFontSet};
ghost use Rattle.run_words.specs.Jobs.{IsStills};
ghost use Rattle.run_status.specs.declared.status.Status.TheVariants.{Done as done_status};
ghost use Rattle.single_run.specs.Outcomes.{IsOrFault, IsWriteCounted, status_if_put};
ghost use Rattle.single_run.specs.Runs.{IsTaskDone, sink_change};
ghost use Rattle.single_run.specs.StillOutputs.{IsToldAs, SuitsStills};
ghost use Rattle.single_run.specs.declared.work.Task.TheVariants.{Stills};

use crate::outcome::Outcome;
use ass_io::Sink;
use run_status::{Inputs, Status, Which};
use run_words::StillsJob;
use std::alloc::Global;
use still_images::{StillsFault, show_stills};

/// What came of the images, with the index that is to be reported.
fn told(end: Result<String, StillsFault>) -> Outcome
    ensures { IsToldAs end result }
{
    match end {
        Ok(text) => Outcome::Found(text),
        Err(StillsFault::WriteFault) => Outcome::Ended(Status::WriteFault(Which::Frames)),
        Err(StillsFault::OutOfMemory) => Outcome::Ended(Status::OutOfMemory),
    }
}

/// Shows a script in fonts from instant to instant, and puts the images of what changes to the frames sink.
pub fn keep<F: Sink>(alloc: Global, stills: &StillsJob, inputs: Inputs, frames: &mut F) -> Outcome
    requires stills { IsStills stills.now }
    requires script { IsScript inputs.script }
    requires short { HasShortLines inputs.script }
    requires fonts { IsLayoutFontSet inputs.fonts }
    ensures answered { IsOrFault Which.Frames done_status (status_if_put result) }
    ensures done { IsTaskDone (Stills stills.now) (Ok inputs) (sink_change (F.state frames.old) (F.state frames.new)) result }
    ensures counted { IsWriteCounted (status_if_put result) (F.state frames.old).faults (F.state frames.new).faults }
    ensures own { SuitsStills result }
{
    let Inputs { script, fonts } = inputs;
    told(show_stills(alloc, stills, &script, fonts, frames))
}
