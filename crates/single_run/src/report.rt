//! What the report gets.

ghost use Rattle.std.specs.Prelude.{◌≡◌, ◌++◌, ◌∷◌, []};
ghost use Rattle.single_run.specs.Outcomes.{ArePiecesFinished, IsEnded, IsMemoryReported, IsReportable, IsReported, memory_line, text_to_report};

use crate::outcome::Outcome;
use ass_io::{Put, Sink};
use ass_num::OutOfMemory;
use run_status::{Status, Which};
use std::alloc::Global;

/// Puts what is to be reported of an outcome, and answers how the run ended: what was found, or the line of a status that
/// isn't `Done`. Where memory runs out for the line or for its put, out of memory is answered in its place, and its
/// line is put.
#[tactic(auto, using(crate::proofs::Runs::told_whole, crate::proofs::Runs::told_part, crate::proofs::Runs::told_nothing, crate::proofs::Runs::memory_behind, crate::proofs::Runs::asked_behind))]
pub fn finish<R: Sink>(alloc: Global, outcome: Outcome, report: &mut R) -> Status
    requires { IsReportable outcome }
    ensures answer { IsEnded outcome result }
    ensures report { IsReported result (R.state report.old).held (R.state report.new).held
        (R.state report.old).faults (R.state report.new).faults (λ text. text ≡ text_to_report outcome) }
    ensures pieces { ArePiecesFinished outcome result (R.state report.old).asked (R.state report.new).asked }
{
    match outcome {
        Outcome::Found(text) => match report.put(text.as_bytes()) {
            Put::Done => Status::Done,
            Put::Failed => Status::WriteFault(Which::Report),
            Put::OutOfMemory => give_up(report),
        },
        Outcome::Ended(Status::Done) => Status::Done,
        Outcome::Ended(Status::OutOfMemory) => give_up(report),
        Outcome::Ended(status) => match status.line(alloc) {
            Ok(line) => match report.put(line.as_bytes()) {
                Put::OutOfMemory => give_up(report),
                Put::Done | Put::Failed => status,
            },
            Err(OutOfMemory) => give_up(report),
        },
    }
}

/// Puts the line of out of memory. It takes no memory.
#[tactic(auto, using(crate::proofs::Runs::memory_told))]
pub fn give_up<R: Sink>(report: &mut R) -> Status
    ensures answer { result ≡ Status.OutOfMemory }
    ensures report { IsMemoryReported (R.state report.old).held (R.state report.new).held (R.state report.old).faults (R.state report.new).faults }
    ensures pieces { (R.state report.new).asked ≡ (R.state report.old).asked ++ memory_line ∷ [] }
{
    match report.put(b"out of memory\n") {
        Put::Done | Put::Failed | Put::OutOfMemory => Status::OutOfMemory,
    }
}
