//! How a run reports, and where.

ghost use Rattle.std.specs.Prelude.{◌≡◌, IfOk, option_and_then};
ghost use Rattle.clap.specs.Words.{found_of, rows_of, subcommand_rows_of};
ghost use Rattle.run_words.specs.Asked.{text_at};
ghost use Rattle.run_words.specs.ReportWords.{ListsFitJobs, PlainReportsStay, is_plain, options_at, options_met, options_of, plain_options, report_form};
ghost use Rattle.run_words.specs.Values.{form_in};
ghost use Rattle.run_words.specs.Words.{texts};

use crate::argument::Argument;
use crate::asked::{is_told, text_at};
use crate::grammar::matches_in;
use crate::values::form_in;
use ass_num::{Mem, Text};
use clap::ArgMatches;
use std::alloc::Global;

/// How a report is written.
#[derive(Clone, Copy, Debug, PartialEq, Eq)]
pub enum ReportForm {
    /// As lines of words.
    Text,
    /// As lines of JSON.
    Json,
    /// Not at all.
    Silent,
}

/// What words tell of the report of a run.
#[derive(Debug, Drop)]
pub struct ReportOptions {
    /// How it is written, where that is told.
    pub form: Option<ReportForm>,
    /// The name of the file to which it goes, where it goes to one.
    pub file: Option<Text>,
    /// The name of the file to which a list of changed images goes, where one is wanted.
    pub index: Option<Text>,
    /// Whether a terminal is shown how far the run is.
    pub progress: bool,
    /// Whether the run may end well where who reads the images ends first.
    pub quiet_pipe: bool,
}

/// What is told where nothing is.
fn plain_options() -> ReportOptions
    ensures { result ≡ plain_options }
{
    ReportOptions {
        form: None,
        file: None,
        index: None,
        progress: false,
        quiet_pipe: false,
    }
}

impl ReportOptions {
    /// The form of the report.
    pub fn report_form(&self) -> ReportForm
        ensures { result ≡ report_form self.now }
    {
        match self.form {
            Some(form) => form,
            None => ReportForm::Text,
        }
    }

    /// Whether nothing is told.
    pub fn is_plain(&self) -> bool
        ensures { result ≡ is_plain self.now }
    {
        self.form.is_none()
            && self.file.is_none()
            && self.index.is_none()
            && !self.progress
            && !self.quiet_pipe
    }
}

/// The text of an argument.
fn copied_at(alloc: Global, found: &ArgMatches, argument: Argument) -> Mem<Option<Text>>
    ensures { IfOk result (λ copy. copy ≡ text_at (rows_of (found_of found.now)) argument) }
{
    match text_at(found, argument) {
        Some(text) => Ok(Some(Text::copy(alloc, text)?)),
        None => Ok(None),
    }
}

/// How the report is written, where that is told.
fn form_at(found: &ArgMatches) -> Option<ReportForm>
    ensures { result ≡ option_and_then form_in (text_at (rows_of (found_of found.now)) Argument.Report) }
{
    form_in(text_at(found, Argument::Report)?)
}

/// What is told to a command.
fn options_at(alloc: Global, found: &ArgMatches) -> Mem<ReportOptions>
    ensures { IfOk result (λ options. options ≡ options_at (rows_of (found_of found.now))) }
{
    Ok(ReportOptions {
        form: form_at(found),
        file: copied_at(alloc, found, Argument::ReportTo)?,
        index: copied_at(alloc, found, Argument::Index)?,
        progress: is_told(found, Argument::Progress),
        quiet_pipe: is_told(found, Argument::QuietPipe),
    })
}

/// What is told to the command that was met.
fn options_met(alloc: Global, matches: &ArgMatches) -> Mem<ReportOptions>
    ensures { IfOk result (λ options. options ≡ options_met (subcommand_rows_of matches.now)) }
{
    match matches.subcommand() {
        Some((_name, found)) => options_at(alloc, found),
        None => Ok(plain_options()),
    }
}

/// What the words tell of the report of their run; where they aren't of the grammar they tell nothing.
pub fn read_options(alloc: Global, words: &[String]) -> Mem<ReportOptions>
    ensures { IfOk result (λ options. options ≡ options_of (texts words.now)) }
{
    match matches_in(alloc, words)? {
        Some(matches) => options_met(alloc, &matches),
        None => Ok(plain_options()),
    }
}

/// A command that is given none of these options is told nothing, and a list of images is asked for only beside changed images
/// that are whole.
pub fn reports_fit_jobs()
    ensures plain { PlainReportsStay }
    ensures lists { ListsFitJobs }
{}
