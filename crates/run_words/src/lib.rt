//! The words of a run, and the job that they ask for.
#![tactic(auto)]

mod argument;
mod asked;
mod command;
mod form;
mod grammar;
mod job;
mod report_words;
mod values;
mod words;

pub use form::image_form;
pub use job::{
    ChangesJob, FrameFormat, FrameJob, ImageForm, Job, Mode, PlayFormat, PlayJob, ScriptSource,
    StillsJob, WordsFault, WordsRefusal,
};
pub use report_words::{ReportForm, ReportOptions, read_options, reports_fit_jobs};
pub use words::{first_word_is_command, plain_frames_stay, read_words, usage_is_of_grammar};
