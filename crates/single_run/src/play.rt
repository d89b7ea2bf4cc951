//! The call that waits for nobody.

ghost use Rattle.std.specs.Prelude.{◌≡◌, ◌≢◌, ◌⊎◌, [], IfSome, IsSomeAnd, None, Ok, Some};
ghost use Rattle.ass_io.specs.Fetches.{fetch_change};
ghost use Rattle.ass_num.specs.Causes.{Rose};
ghost use Rattle.single_run.specs.Outcomes.{ArePiecesFinished, IsOrMemory, IsStatusReadCounted, IsReportable, IsReported, IsWriteCounted};
ghost use Rattle.single_run.specs.Outcomes.{out_of_memory, status_if_put};
ghost use Rattle.single_run.specs.Runs.{Decides, IsJobRun, IsWorked, sink_change};
ghost use Rattle.single_run.specs.Works.{work_asked};
ghost use Rattle.run_words.specs.Words.{texts};

use crate::outcome::Outcome;
use crate::report::finish;
use crate::task::do_work;
use crate::work::{Work, read_work};
use ass_io::{Shelf, Sink};
use run_status::{Status, files_decide};
use std::alloc::Global;

/// Does a `check`, a `frame`, a `changes` or a `write`, and refuses words that ask for no job. It waits for nobody. A `play`,
/// a `selftest`, and what the program tells of itself, it leaves to its caller: `None` comes exactly there, unless memory runs out for the words.
pub fn calm<S: Shelf, F: Sink, R: Sink>(
    alloc: Global,
    words: &[String],
    shelf: &mut S,
    frames: &mut F,
    report: &mut R,
) -> Option<Status>
    // Words that ask for no work are refused, before any file is fetched, and nothing is shown.
    ensures other_words { (status : Status) → work_asked (texts words.now) ≡ Err status → IsSomeAnd result (IsOrMemory status) }
    ensures other_shelf { ((work : Work) → work_asked (texts words.now) ≢ Ok (Some work)) → shelf.new ≡ shelf.old }
    ensures other_frames { ((work : Work) → work_asked (texts words.now) ≢ Ok (Some work)) → frames.new ≡ frames.old }
    ensures other_report { ((work : Work) → work_asked (texts words.now) ≢ Ok (Some work))
        → IfSome result (λ status. IsReported status (R.state report.old).held (R.state report.new).held
        (R.state report.old).faults (R.state report.new).faults (λ text. text ≡ [])) }
    ensures other_pieces { (status : Status) → work_asked (texts words.now) ≡ Err status
        → IsSomeAnd result (λ answer. ArePiecesFinished (Outcome.Ended status) answer (R.state report.old).asked (R.state report.new).asked) }

    // A play, a selftest, and what the program tells of itself, are left, and nothing is touched.
    ensures left { work_asked (texts words.now) ≡ Ok None → IfSome result (λ status. status ≡ Status.OutOfMemory) }
    ensures left_pieces { work_asked (texts words.now) ≡ Ok None
        → IfSome result (λ answer. ArePiecesFinished out_of_memory answer (R.state report.old).asked (R.state report.new).asked) }
    ensures none { result ≡ None → work_asked (texts words.now) ≡ Ok None }
    ensures untouched { result ≡ None → (shelf.new ≡ shelf.old) × (frames.new ≡ frames.old) × (report.new ≡ report.old) }

    // The files are fetched in order, each once, and what that gives asks for the answer, for what both sinks get, and for the pieces that they are asked to put.
    ensures run { (work : Work) → work_asked (texts words.now) ≡ Ok (Some work) → IsSomeAnd result (IsJobRun (S.told shelf.old)
        (fetch_change (S.log shelf.old) (S.log shelf.new)) work
        (sink_change (F.state frames.old) (F.state frames.new))
        (sink_change (R.state report.old) (R.state report.new))) }

    // Where all files are told and no count of faults rose, they decide the answer.
    ensures decided { (work : Work) → work_asked (texts words.now) ≡ Ok (Some work)
        → (Rose (S.faults shelf.old) (S.faults shelf.new) → ⊥)
        → (Rose (F.state frames.old).faults (F.state frames.new).faults → ⊥)
        → (Rose (R.state report.old).faults (R.state report.new).faults → ⊥)
        → IsSomeAnd result (Decides (S.told shelf.old) work) }

    // A fault is answered only where its object's count rose.
    ensures read { IfSome result (λ status. IsStatusReadCounted status (S.faults shelf.old) (S.faults shelf.new)) }
    ensures write { IfSome result (λ status. IsWriteCounted status (F.state frames.old).faults (F.state frames.new).faults) }
{
    files_decide();
    match do_words(alloc, words, shelf, frames) {
        Some(outcome) => Some(finish(alloc, outcome, report)),
        None => None,
    }
}

/// Does what the words ask, up to what is to be reported, unless that is left to the caller.
fn do_words<S: Shelf, F: Sink>(
    alloc: Global,
    words: &[String],
    shelf: &mut S,
    frames: &mut F,
) -> Option<Outcome>
    ensures other_words { (status : Status) → work_asked (texts words.now) ≡ Err status
        → IsSomeAnd result (λ outcome. (outcome ≡ Outcome.Ended status) ⊎ (outcome ≡ out_of_memory)) }
    ensures other_shelf { ((work : Work) → work_asked (texts words.now) ≢ Ok (Some work)) → shelf.new ≡ shelf.old }
    ensures other_frames { ((work : Work) → work_asked (texts words.now) ≢ Ok (Some work)) → frames.new ≡ frames.old }
    ensures left { work_asked (texts words.now) ≡ Ok None → IfSome result (λ outcome. outcome ≡ out_of_memory) }
    ensures none { result ≡ None → work_asked (texts words.now) ≡ Ok None }
    ensures run { (work : Work) → work_asked (texts words.now) ≡ Ok (Some work) → IsSomeAnd result (IsWorked (S.told shelf.old)
        (fetch_change (S.log shelf.old) (S.log shelf.new)) work
        (sink_change (F.state frames.old) (F.state frames.new))) }
    ensures read { IfSome result (λ outcome. IsStatusReadCounted (status_if_put outcome) (S.faults shelf.old) (S.faults shelf.new)) }
    ensures write { IfSome result (λ outcome. IsWriteCounted (status_if_put outcome) (F.state frames.old).faults (F.state frames.new).faults) }
    ensures reportable { IfSome result IsReportable }
{
    match read_work(alloc, words) {
        Ok(Some(work)) => Some(do_work(alloc, &work, shelf, frames)),
        Ok(None) => None,
        Err(status) => Some(Outcome::Ended(status)),
    }
}
