//! What words ask for, where its report is to be told otherwise than by default.

ghost use Rattle.std.specs.Prelude.{◌≡◌, IfOk};
ghost use Rattle.run_reports.specs.AskedJobs.{IsAskedOtherwise, reported};
ghost use Rattle.run_reports.specs.AskedRuns.{reports};
ghost use Rattle.run_words.specs.Words.{texts};

use ass_num::{Mem, OutOfMemory};
use run_words::{Job, ReportOptions, WordsRefusal, read_options, read_words};
use std::alloc::Global;

/// A job, and what is told of its report.
#[derive(Debug, Drop)]
pub struct AskedJob {
    pub job: Job,
    pub options: ReportOptions,
}

/// Whether a job has a report that can be told otherwise.
fn reports(job: &Job) -> bool
    ensures { result ≡ reports job.now }
{
    match job {
        Job::Check(_, _) | Job::Changes(_, _, _) | Job::Play(_, _, _) => true,
        Job::Stills(_, _, _) | Job::Selftest(_, _, _) => true,
        Job::Frame(_, _, _) | Job::Write(_, _, _) => false,
        Job::Help | Job::Version => false,
    }
}

/// A job that reports, with what is told of its report.
fn reported(job: Job, options: ReportOptions) -> Option<AskedJob>
    ensures { result ≡ reported job options }
{
    if reports(&job) {
        Some(AskedJob { job, options })
    } else {
        None
    }
}

/// The job that words ask for, where they tell that its report is to be told otherwise than by default.
pub fn asked_otherwise(alloc: Global, words: &[String]) -> Mem<Option<AskedJob>>
    ensures { IfOk result (IsAskedOtherwise (texts words.now)) }
{
    let options = read_options(alloc, words)?;
    if options.is_plain() {
        return Ok(None);
    }
    match read_words(alloc, words) {
        Ok(job) => Ok(reported(job, options)),
        Err(WordsRefusal::BadWords(_fault)) => Ok(None),
        Err(WordsRefusal::OutOfMemory) => Err(OutOfMemory),
    }
}
