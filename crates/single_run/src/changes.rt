//! What changes from picture to picture.

ghost use Rattle.std.specs.Prelude.{◌≡◌, ◌≢◌};
ghost use Rattle.ass_script.specs.Ranges.{IsScript};
ghost use Rattle.run_status.specs.declared.status.Status.TheVariants.{Done as done_status};
ghost use Rattle.ass_events.specs.LineLaws.{HasShortLines};
ghost use Rattle.text_layout.specs.Fonts.{IsLayoutFontSet};
ghost use Rattle.single_run.specs.ChangeReports.{IsChangesReport};
ghost use Rattle.single_run.specs.Outcomes.{IsOrFault, SuitsSink, status_if_put, text_to_report};
ghost use Rattle.run_words.specs.Jobs.{IsChangesJob};

use crate::changes_report;
use crate::outcome::Outcome;
use ass_num::OutOfMemory;
use run_status::{Inputs, Status, Which};
use run_words::ChangesJob;
use std::alloc::Global;

/// What a report on changes is to say.
pub fn compare(alloc: Global, changes: &ChangesJob, inputs: Inputs) -> Outcome
    requires changes { IsChangesJob changes.now }
    requires script { IsScript inputs.script }
    requires short { HasShortLines inputs.script }
    requires fonts { IsLayoutFontSet inputs.fonts }
    ensures answered { IsOrFault Which.Report done_status (status_if_put result) }
    ensures text { status_if_put result ≡ done_status → IsChangesReport inputs.script inputs.fonts changes.now.instants changes.now.view
        (text_to_report result) }
    ensures own { SuitsSink Which.Report result }
    ensures memory { status_if_put result ≢ done_status → result ≡ Outcome.Ended Status.OutOfMemory }
{
    let Inputs { script, fonts } = inputs;
    let ChangesJob {
        instants,
        view,
        budget,
    } = changes;
    match changes_report(alloc, &script, fonts, instants, view, *budget) {
        Ok(text) => Outcome::Found(text),
        Err(OutOfMemory) => Outcome::Ended(Status::OutOfMemory),
    }
}
