//! What is watched of a run.

ghost use Rattle.std.specs.Prelude.{◌≡◌, IfOk};
ghost use Rattle.run_reports.specs.Watching.{watched_by, watched_of, watched_where};
ghost use Rattle.run_words.specs.Words.{texts};

use crate::asked::{AskedJob, asked_otherwise};
use ass_num::Mem;
use run_words::Job;
use std::alloc::Global;

/// How many images a selftest makes.
const SELFTEST_IMAGES: u64 = 20;

/// How many images or lines a run makes, or of how many instants it shows only what changes.
#[derive(Clone, Copy, Debug, PartialEq, Eq)]
pub struct WatchedRun {
    pub total: u64,
    /// Whether they are lines of the report.
    pub is_of_lines: bool,
}

/// What there is to watch of a job.
fn watched_of(job: &Job) -> Option<WatchedRun>
    ensures { result ≡ watched_of job.now }
{
    match job {
        Job::Play(play, _, _) => Some(WatchedRun {
            total: u64::from(play.times).saturating_mul(play.instants.count),
            is_of_lines: false,
        }),
        Job::Selftest(_, _, _) => Some(WatchedRun {
            total: SELFTEST_IMAGES,
            is_of_lines: false,
        }),
        Job::Changes(changes, _, _) => Some(WatchedRun {
            total: changes.instants.count,
            is_of_lines: true,
        }),
        Job::Stills(stills, _, _) => Some(WatchedRun {
            total: stills.instants.count,
            is_of_lines: false,
        }),
        Job::Check(_, _) | Job::Frame(_, _, _) | Job::Write(_, _, _) => None,
        Job::Help | Job::Version => None,
    }
}

/// What there is to watch of a job, where the words ask to be shown how far it is.
fn watched_where(asked: &AskedJob) -> Option<WatchedRun>
    ensures { result ≡ watched_where asked.now.options asked.now.job }
{
    if asked.options.progress {
        watched_of(&asked.job)
    } else {
        None
    }
}

/// What there is to watch of the run that words ask for, where they ask to be shown how far it is.
pub fn watched(alloc: Global, words: &[String]) -> Mem<Option<WatchedRun>>
    ensures { IfOk result (λ watched. watched ≡ watched_by (texts words.now)) }
{
    match asked_otherwise(alloc, words)? {
        Some(asked) => Ok(watched_where(&asked)),
        None => Ok(None),
    }
}
