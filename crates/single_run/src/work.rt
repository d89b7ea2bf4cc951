//! The work that words ask for.

ghost use Rattle.std.specs.Prelude.{◌≡◌, IfOk, IfSome, Ok, option_map};
ghost use Rattle.single_run.specs.Works.{IsWork, IsWorkRead, compared, limited, task_in, work_asked, work_in, work_of, work_with};
ghost use Rattle.run_words.specs.Jobs.{IsJob};
ghost use Rattle.run_words.specs.Words.{texts};

use ass_num::{Items, Text};
use run_status::{MAX_FONTS, Status, What};
use run_words::{
    ChangesJob, FrameJob, Job, ScriptSource, StillsJob, WordsFault, WordsRefusal, read_words,
};
use std::alloc::Global;

/// The most pictures that a task compares.
const MAX_FRAMES: usize = 1_000_000;

/// How many milliseconds later, and then earlier, events are to be written.
#[derive(Clone, Copy, Debug)]
pub struct WriteTask {
    pub later: i64,
    pub earlier: i64,
}

/// What is to be done with a script and fonts.
#[derive(Clone, Copy, Debug)]
pub enum Task {
    /// A report on what they hold.
    Check,
    /// A picture of the script in the fonts.
    Frame(FrameJob),
    /// A report on what changes from picture to picture.
    Changes(ChangesJob),
    /// The pictures that differ from those before them.
    Stills(StillsJob),
    /// The script written again.
    Write(WriteTask),
}

/// A task, and the names of the files that it is about.
#[derive(Debug, Drop)]
pub struct Work {
    pub task: Task,
    pub script: ScriptSource,
    pub fonts: Items<Text>,
}

/// A task in fonts, of which words name one at least.
fn task_in(task: Task, fonts: &[Text]) -> Option<Task>
    ensures { result ≡ task_in task fonts.now }
{
    match fonts {
        [] => None,
        [_, ..] => Some(task),
    }
}

/// The work of such a task.
fn work_in_fonts(task: Task, script: ScriptSource, fonts: Items<Text>) -> Option<Work>
    ensures { result ≡ option_map (work_with script fonts) (task_in task fonts) }
{
    let task = task_in(task, fonts.as_slice())?;
    Some(Work {
        task,
        script,
        fonts,
    })
}

/// The work of a job that waits for nobody, where words can ask for it.
pub fn work_of(alloc: Global, job: Job) -> Option<Work>
    ensures { result ≡ work_of job }
{
    match job {
        Job::Check(script, fonts) => Some(Work {
            task: Task::Check,
            script,
            fonts,
        }),
        Job::Frame(frame, script, fonts) => work_in_fonts(Task::Frame(frame), script, fonts),
        Job::Changes(changes, script, fonts) => {
            work_in_fonts(Task::Changes(changes), script, fonts)
        }
        Job::Stills(stills, script, fonts) => work_in_fonts(Task::Stills(stills), script, fonts),
        Job::Write(later, earlier, script) => Some(Work {
            task: Task::Write(WriteTask { later, earlier }),
            script: ScriptSource {
                name: script,
                own_fonts: false,
            },
            fonts: Items::new(alloc),
        }),
        Job::Play(_, _, _) | Job::Selftest(_, _, _) => None,
        Job::Help | Job::Version => None,
    }
}

/// How many pictures the task of some work compares.
fn compared(work: &Work) -> u64
    requires { IsWork work.now }
    ensures { result ≡ compared work.now.task }
{
    match &work.task {
        Task::Changes(changes) => changes.instants.count,
        Task::Stills(stills) => stills.instants.count,
        Task::Check | Task::Frame(_) | Task::Write(_) => 0,
    }
}

/// The work, unless it compares too many pictures. Too many fonts are told first, when they are read.
fn limited(work: Work) -> Result<Option<Work>, Status>
    requires { IsWork work }
    ensures limited { result ≡ limited work }
    ensures work { IfOk result (λ work. IfSome work IsWork) }
{
    if work.fonts.len() <= MAX_FONTS && compared(&work) > MAX_FRAMES as u64 {
        return Err(Status::TooLarge(What::Frames, MAX_FRAMES));
    }
    Ok(Some(work))
}

/// The work of a job, none where threads wait for one another in it or it is no work, or the status that it asks for.
#[tactic(auto, using(crate::proofs::WorkLemmas::work_suits))]
pub fn work_in(alloc: Global, job: Job) -> Result<Option<Work>, Status>
    requires { IsJob job }
    ensures asked { result ≡ work_in (Ok job) }
    ensures work { IfOk result (λ work. IfSome work IsWork) }
{
    if let Job::Play(_, _, _) | Job::Selftest(_, _, _) | Job::Help | Job::Version = &job {
        return Ok(None);
    }
    match work_of(alloc, job) {
        Some(work) => limited(work),
        // Words name a font, so this doesn't come.
        None => Err(Status::BadWords(WordsFault::Usage)),
    }
}

/// The work that the words ask for, none where threads wait for one another in it or they ask for none, or the status that
/// they ask for.
pub fn read_work(alloc: Global, words: &[String]) -> Result<Option<Work>, Status>
    ensures asked { IsWorkRead (work_asked (texts words.now)) result }
    ensures work { IfOk result (λ work. IfSome work IsWork) }
{
    match read_words(alloc, words) {
        Ok(job) => work_in(alloc, job),
        Err(WordsRefusal::BadWords(fault)) => Err(Status::BadWords(fault)),
        Err(WordsRefusal::OutOfMemory) => Err(Status::OutOfMemory),
    }
}
