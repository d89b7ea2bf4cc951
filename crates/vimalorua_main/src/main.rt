//! The program: it makes the real shelf, sinks and hook, and answers what the words come to.
#![tactic(auto)]

mod progress;

use crate::progress::{CountedSink, Meter, MeterHook, MeteredReport};
use ass_io::{FileShelf, FileSink, StdSink};
use run_reports::{WatchedRun, exit_of_asked, watched};
use single_run::give_up;
use std::io::IsTerminal;
use std::process::ExitCode;
use std::{env, io};

/// The words after the program's name.
fn words_of(rt: &HostRuntime) -> io::Result<Vec<String>> {
    let mut words = Vec::new(rt.alloc());
    for word in env::args(rt)?.skip(1) {
        words.push(word)?;
    }
    Ok(words)
}

/// A meter of the run that the words ask for, where they ask for one too and a terminal is there.
fn meter_of(rt: HostRuntime, is_terminal: bool, watched: Option<WatchedRun>) -> Option<Meter> {
    if !is_terminal {
        return None;
    }
    Meter::new(rt, watched?.total)
}

fn main(rt: HostRuntime) -> ExitCode {
    let mut report = FileSink::new(rt.stderr(), rt);
    let words = match words_of(&rt) {
        Ok(words) => words,
        Err(refused) if refused.kind() == io::ErrorKind::OutOfMemory => {
            return ExitCode::from(give_up(&mut report).exit_status());
        }
        // Words that are no text are of no grammar, as no words are.
        Err(_) => Vec::new(rt.alloc()),
    };
    let words = words.as_slice();
    let is_terminal = rt.stderr().is_terminal();
    // Where memory runs out nothing is watched; the run itself tells of it, if it runs out there too.
    let asked = watched(rt.alloc(), words).unwrap_or(None);
    let hook = MeterHook {
        meter: meter_of(rt, is_terminal, asked),
    };
    let counts_images = is_terminal && hook.meter.is_none();
    let counts_lines = asked.is_some_and(|watched| watched.is_of_lines);
    let mut shelf = FileShelf::new(rt);
    let mut frames = CountedSink::new(StdSink::new(rt.stdout()), rt.stderr(), counts_images);
    let mut index = FileSink::new(rt.stderr(), rt);
    let mut report = MeteredReport::new(report, hook.meter.as_ref(), counts_lines);
    let exit = exit_of_asked(
        &rt,
        rt.alloc(),
        words,
        &mut shelf,
        &mut frames,
        &mut index,
        &mut report,
        &hook,
    );
    hook.end();
    ExitCode::from(exit)
}
