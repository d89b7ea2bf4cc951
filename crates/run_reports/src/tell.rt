//! What the report gets at the end of a run.

ghost use Rattle.std.specs.Prelude.{◌≡◌, IfOk, string_bytes};
ghost use Rattle.run_reports.specs.Telling.{IsMemorySaid, IsTaleTold, IsTold, IsToldAloud, said, tale_ending};
ghost use Rattle.run_status.specs.Endings.{memory_ending};

use crate::tale::Tale;
use ass_io::{Put, Sink};
use ass_num::{Mem, OutOfMemory};
use run_status::{Ending, Status, Which, memory_json};
use run_words::ReportForm;
use std::alloc::Global;

/// What is said of an end.
fn said(alloc: Global, form: ReportForm, ending: &Ending) -> Mem<String>
    ensures { IfOk result (λ line. string_bytes line ≡ said form ending.now) }
{
    match form {
        ReportForm::Text => ending.line(alloc),
        ReportForm::Json => ending.json(alloc),
        ReportForm::Silent => Ok(String::new(alloc)),
    }
}

/// What is said where memory ran out.
fn memory_line(form: ReportForm) -> &'static str
    ensures { result.now ≡ said form memory_ending }
{
    match form {
        ReportForm::Text => "out of memory\n",
        ReportForm::Json => memory_json(),
        ReportForm::Silent => "",
    }
}

/// Says that memory ran out. It takes no memory.
#[inline(never)]
#[tactic(auto, using(crate::proofs::TellLemmas::memory_said))]
pub fn say_memory<R: Sink>(form: ReportForm, report: &mut R) -> Ending
    ensures { IsMemorySaid form (R.state report.old) (R.state report.new) result }
{
    match report.put(memory_line(form).as_bytes()) {
        Put::Done | Put::Failed | Put::OutOfMemory => Ending::As(Status::OutOfMemory),
    }
}

/// Tells an end of which something is said.
#[tactic(auto, using(crate::proofs::TellLemmas::end_told, crate::proofs::TellLemmas::end_cut, crate::proofs::TellLemmas::end_wanting, crate::proofs::TellLemmas::end_unsaid))]
fn tell_ending<R: Sink>(alloc: Global, form: ReportForm, ending: Ending, report: &mut R) -> Ending
    ensures { IsTaleTold form (Tale.Ends ending) (R.state report.old) (R.state report.new) result }
{
    match said(alloc, form, &ending) {
        Ok(line) => match report.put(line.as_bytes()) {
            Put::Done | Put::Failed => ending,
            Put::OutOfMemory => say_memory(form, report),
        },
        Err(OutOfMemory) => say_memory(form, report),
    }
}

/// Tells what was found, by one put.
#[tactic(auto, using(crate::proofs::TellLemmas::found_told, crate::proofs::TellLemmas::found_cut, crate::proofs::TellLemmas::found_wanting))]
fn tell_found<R: Sink>(form: ReportForm, text: String, report: &mut R) -> Ending
    ensures { IsTaleTold form (Tale.Found text) (R.state report.old) (R.state report.new) result }
{
    match report.put(text.as_bytes()) {
        Put::Done => Ending::As(Status::Done),
        Put::Failed => Ending::As(Status::WriteFault(Which::Report)),
        Put::OutOfMemory => say_memory(form, report),
    }
}

/// Tells in a form that isn't silent what came of a run.
#[tactic(auto, using(crate::proofs::TellLemmas::aloud_end))]
fn tell_aloud<R: Sink>(alloc: Global, form: ReportForm, tale: Tale, report: &mut R) -> Ending
    ensures { IsToldAloud form tale (R.state report.old) (R.state report.new) result }
{
    match tale {
        Tale::Found(text) => tell_found(form, text, report),
        Tale::Ends(Ending::ClosedQuietly) => Ending::ClosedQuietly,
        Tale::Ends(ending) => tell_ending(alloc, form, ending, report),
    }
}

/// How a run ends that is told whole.
fn ending_of(tale: Tale) -> Ending
    ensures { result ≡ tale_ending tale }
{
    match tale {
        Tale::Found(_) => Ending::As(Status::Done),
        Tale::Ends(ending) => ending,
    }
}

/// Tells in a form what came of a run, and answers how it ended: by one put of what was found, or of the line of its end.
/// Where memory runs out for that, this is told in its place. Of an end that is to be quiet, and in the silent form, nothing is
/// told, and no put is asked.
#[inline(never)]
pub fn tell<R: Sink>(alloc: Global, form: ReportForm, tale: Tale, report: &mut R) -> Ending
    ensures { IsTold form tale (R.state report.old) (R.state report.new) result }
{
    match form {
        ReportForm::Text | ReportForm::Json => tell_aloud(alloc, form, tale, report),
        ReportForm::Silent => ending_of(tale),
    }
}
