//! The call that the program makes.

ghost use Rattle.std.specs.Prelude.{◌≡◌, ◌≢◌, ◌⊎◌, [], ℕ, List, None, Ok, Some};
ghost use Rattle.ass_io.specs.Fetches.{fetch_change};
ghost use Rattle.ass_num.specs.Causes.{Rose};
ghost use Rattle.single_run.specs.Outcomes.{ArePiecesFinished, IsOrMemory, IsReportable, IsReported};
ghost use Rattle.single_run.specs.Outcomes.{IsStatusReadCounted, IsWriteCounted, out_of_memory, status_if_put};
ghost use Rattle.single_run.specs.Runs.{Decides, IsJobRun, sink_change};
ghost use Rattle.single_run.specs.Works.{work_asked};
ghost use Rattle.single_run.specs.declared.work.Work.{Work};
ghost use Rattle.play_command.specs.OwnTexts.{IsTextRun, own_text};
ghost use Rattle.play_command.specs.PlayRuns.{DecidesPlay, IsPlayRun};
ghost use Rattle.play_command.specs.SelftestRuns.{DecidesSelftest, IsSelftestRun};
ghost use Rattle.play_command.specs.Working.{IsJobWorked, IsLeftByCalm, IsSpoken};
ghost use Rattle.run_words.specs.Jobs.{IsJob};
ghost use Rattle.run_words.specs.Words.{job_of, texts};
ghost use Rattle.run_words.specs.declared.job.Job.{Job as JobValue};
ghost use Rattle.run_words.specs.declared.job.Job.TheVariants.{Play as a_play, Selftest as a_selftest};
ghost use Rattle.run_words.specs.declared.job.PlayJob.{PlayJob};
ghost use Rattle.run_words.specs.declared.job.ScriptSource.{ScriptSource};

use crate::help::HELP;
use crate::own_text::{VERSION, tell};
use crate::playing::play_files;
use crate::selftest::do_selftest;
use ass_io::{Rt, Shelf, Sink};
use run_status::{Status, files_decide};
use run_words::{Job, ReportForm, read_words};
use single_run::{Outcome, calm, finish};
use std::alloc::Global;
use test_hook::TestHook;

/// Does a job that `calm` leaves, up to what is to be reported of it.
fn do_job<S: Shelf, F: Sink, H: TestHook + Sync>(
    rt: &impl Rt,
    alloc: Global,
    job: Job,
    shelf: &mut S,
    frames: &mut F,
    hook: &H,
) -> Outcome
    requires within { IsJob job }
    requires left { IsLeftByCalm job }
    ensures worked { IsJobWorked (S.told shelf.old) (fetch_change (S.log shelf.old) (S.log shelf.new)) job
        (sink_change (F.state frames.old) (F.state frames.new)) result }
    ensures selftest_shelf { (seed events workers : ℕ) → job ≡ a_selftest seed events workers → shelf.new ≡ shelf.old }
    ensures selftest_frames { (seed events workers : ℕ) → job ≡ a_selftest seed events workers → frames.new ≡ frames.old }
    ensures text_shelf { (text : List ℕ) → own_text job ≡ Some text → shelf.new ≡ shelf.old }
    ensures read { IsStatusReadCounted (status_if_put result) (S.faults shelf.old) (S.faults shelf.new) }
    ensures write { IsWriteCounted (status_if_put result) (F.state frames.old).faults (F.state frames.new).faults }
    ensures reportable { IsReportable result }
    ensures spoken { own_text job ≡ None → IsSpoken result }
{
    match job {
        Job::Play(play, script, fonts) => {
            let fonts = fonts.as_slice();
            play_files(rt, alloc, play, &script, fonts, shelf, frames, hook)
        }
        Job::Selftest(seed, events, workers) => {
            do_selftest(rt, alloc, ReportForm::Text, seed, events, workers, hook)
        }
        Job::Help => tell(HELP, frames),
        Job::Version => tell(VERSION, frames),
        Job::Check(_, _) => unreachable!(),
        Job::Frame(_, _, _) => unreachable!(),
        Job::Stills(_, _, _) => unreachable!(),
        Job::Changes(_, _, _) => unreachable!(),
        Job::Write(_, _, _) => unreachable!(),
    }
}

/// Does the job of words that `calm` leaves, up to what is to be reported of it.
fn do_left<S: Shelf, F: Sink, H: TestHook + Sync>(
    rt: &impl Rt,
    alloc: Global,
    words: &[String],
    shelf: &mut S,
    frames: &mut F,
    hook: &H,
) -> Outcome
    requires { work_asked (texts words.now) ≡ Ok None }
    ensures worked { (job : Job) → job_of (texts words.now) ≡ Ok job
        → IsJobWorked (S.told shelf.old) (fetch_change (S.log shelf.old) (S.log shelf.new)) job
        (sink_change (F.state frames.old) (F.state frames.new)) result }
    ensures selftest_shelf { (seed events workers : ℕ) → job_of (texts words.now) ≡ Ok (a_selftest seed events workers) → shelf.new ≡ shelf.old }
    ensures selftest_frames { (seed events workers : ℕ) → job_of (texts words.now) ≡ Ok (a_selftest seed events workers) → frames.new ≡ frames.old }
    ensures text_shelf { (job : JobValue) (text : List ℕ) → job_of (texts words.now) ≡ Ok job → own_text job ≡ Some text → shelf.new ≡ shelf.old }
    ensures read { IsStatusReadCounted (status_if_put result) (S.faults shelf.old) (S.faults shelf.new) }
    ensures write { IsWriteCounted (status_if_put result) (F.state frames.old).faults (F.state frames.new).faults }
    ensures reportable { IsReportable result }
    ensures spoken { (job : JobValue) → job_of (texts words.now) ≡ Ok job → own_text job ≡ None → IsSpoken result }
{
    match read_words(alloc, words) {
        Ok(job) => do_job(rt, alloc, job, shelf, frames, hook),
        // Words that ask for no job don't come here, so memory ran out for them.
        Err(_refusal) => Outcome::Ended(Status::OutOfMemory),
    }
}

/// Does the job of the words: `calm` does what waits for nobody, a play and a selftest are done here, by
/// threads, and so is what the program tells of itself.
pub fn top<S: Shelf, F: Sink, R: Sink, H: TestHook + Sync>(
    rt: &impl Rt,
    alloc: Global,
    words: &[String],
    shelf: &mut S,
    frames: &mut F,
    report: &mut R,
    hook: &H,
) -> Status
    // Words that ask for no job are refused, before any file is fetched, and nothing is shown.
    ensures other_words { (status : Status) → work_asked (texts words.now) ≡ Err status → IsOrMemory status result }
    ensures other_shelf { (status : Status) → work_asked (texts words.now) ≡ Err status → shelf.new ≡ shelf.old }
    ensures other_frames { (status : Status) → work_asked (texts words.now) ≡ Err status → frames.new ≡ frames.old }
    ensures other_report { (status : Status) → work_asked (texts words.now) ≡ Err status → IsReported result (R.state report.old).held (R.state report.new).held
        (R.state report.old).faults (R.state report.new).faults (λ text. text ≡ []) }
    ensures other_pieces { (status : Status) → work_asked (texts words.now) ≡ Err status
        → ArePiecesFinished (Outcome.Ended status) result (R.state report.old).asked (R.state report.new).asked }

    // The files are fetched in order, each once, and what that gives asks for the answer, for what both sinks get, and for the pieces that they are asked to put.
    ensures run { (work : Work) → work_asked (texts words.now) ≡ Ok (Some work) → IsJobRun (S.told shelf.old)
        (fetch_change (S.log shelf.old) (S.log shelf.new)) work
        (sink_change (F.state frames.old) (F.state frames.new))
        (sink_change (R.state report.old) (R.state report.new)) result }

    // Where all files are told and no count of faults rose, they decide the answer.
    ensures decided { (work : Work) → work_asked (texts words.now) ≡ Ok (Some work)
        → (Rose (S.faults shelf.old) (S.faults shelf.new) → ⊥)
        → (Rose (F.state frames.old).faults (F.state frames.new).faults → ⊥)
        → (Rose (R.state report.old).faults (R.state report.new).faults → ⊥)
        → Decides (S.told shelf.old) work result }

    // So it is with a play, which puts an image each. No file is fetched where it is refused for its images.
    ensures play { (job : PlayJob) (script : ScriptSource) (fonts : List (List ℕ)) → job_of (texts words.now) ≡ Ok (a_play job script fonts)
        → IsPlayRun (S.told shelf.old) (fetch_change (S.log shelf.old) (S.log shelf.new)) job script fonts
        (sink_change (F.state frames.old) (F.state frames.new))
        (sink_change (R.state report.old) (R.state report.new)) result }
    ensures play_decided { (job : PlayJob) (script : ScriptSource) (fonts : List (List ℕ)) → job_of (texts words.now) ≡ Ok (a_play job script fonts)
        → (Rose (S.faults shelf.old) (S.faults shelf.new) → ⊥)
        → (Rose (F.state frames.old).faults (F.state frames.new).faults → ⊥)
        → (Rose (R.state report.old).faults (R.state report.new).faults → ⊥)
        → DecidesPlay (S.told shelf.old) job script fonts result }

    // The report of a selftest is decided by its words but for their workers. It fetches and shows nothing.
    ensures selftest { (seed events workers : ℕ) → job_of (texts words.now) ≡ Ok (a_selftest seed events workers)
        → IsSelftestRun seed events (sink_change (R.state report.old) (R.state report.new)) result }
    ensures selftest_decided { (seed events workers : ℕ) → job_of (texts words.now) ≡ Ok (a_selftest seed events workers)
        → (Rose (R.state report.old).faults (R.state report.new).faults → ⊥) → DecidesSelftest seed events result }
    ensures selftest_shelf { (seed events workers : ℕ) → job_of (texts words.now) ≡ Ok (a_selftest seed events workers) → shelf.new ≡ shelf.old }
    ensures selftest_frames { (seed events workers : ℕ) → job_of (texts words.now) ≡ Ok (a_selftest seed events workers) → frames.new ≡ frames.old }

    // What the program tells of itself goes to the frames sink, by one write, and no file is fetched for it.
    ensures text { (job : JobValue) (text : List ℕ) → job_of (texts words.now) ≡ Ok job → own_text job ≡ Some text
        → IsTextRun text (sink_change (F.state frames.old) (F.state frames.new)) (sink_change (R.state report.old) (R.state report.new)) result }
    ensures text_shelf { (job : JobValue) (text : List ℕ) → job_of (texts words.now) ≡ Ok job → own_text job ≡ Some text → shelf.new ≡ shelf.old }

    // A fault is answered only where its object's count rose.
    ensures read { IsStatusReadCounted result (S.faults shelf.old) (S.faults shelf.new) }
    ensures write { IsWriteCounted result (F.state frames.old).faults (F.state frames.new).faults }
{
    files_decide();
    match calm(alloc, words, shelf, frames, report) {
        Some(status) => status,
        None => {
            let outcome = do_left(rt, alloc, words, shelf, frames, hook);
            finish(alloc, outcome, report)
        }
    }
}
