//! The words of a run.

ghost use Rattle.std.specs.Prelude.{◌≡◌, IfOk, Some, map};
ghost use Rattle.clap.specs.Words.{found_of, rows_of, subcommand_rows_of};
ghost use Rattle.run_words.specs.Asked.{PlainFormatsStay, PlainFramesStay, StepsStay, command_reading};
ghost use Rattle.run_words.specs.Jobs.{IsJob};
ghost use Rattle.run_words.specs.Words.{FirstWordIsCommand, IsReading, UsageIsOfGrammar, asked_alone, asked_by, command_job, is_help, job_in, job_of};
ghost use Rattle.run_words.specs.Words.{reading_in, texts};

use crate::asked::{first_bad, goes_together, job_for};
use crate::command::{Command, command_named};
use crate::grammar::matches_in;
use crate::job::{Job, WordsFault, WordsRefusal};
use clap::ArgMatches;
use std::alloc::Global;

/// The job of a command, or the first of its arguments whose value isn't of its rule.
fn read_command(alloc: Global, found: &ArgMatches, command: Command) -> Result<Job, WordsRefusal>
    ensures { IsReading (command_reading (rows_of (found_of found.now)) command) result }
{
    match first_bad(found, command) {
        Some(argument) => {
            let name = argument.shown_name(alloc)?;
            Err(WordsRefusal::BadWords(WordsFault::Value(name)))
        }
        None => Ok(job_for(alloc, found, command)?),
    }
}

/// The same, where what is told to the command goes together.
fn read_together(alloc: Global, found: &ArgMatches, command: Command) -> Result<Job, WordsRefusal>
    ensures { IsReading (reading_in (rows_of (found_of found.now)) (Some command)) result }
{
    if goes_together(found, command) {
        read_command(alloc, found, command)
    } else {
        Err(WordsRefusal::BadWords(WordsFault::Usage))
    }
}

/// The job of what was found.
fn read_matches(alloc: Global, matches: &ArgMatches) -> Result<Job, WordsRefusal>
    ensures { IsReading (job_in (subcommand_rows_of matches.now)) result }
{
    let Some((name, found)) = matches.subcommand() else {
        return Err(WordsRefusal::BadWords(WordsFault::Usage));
    };
    match command_named(name) {
        Some(command) => read_together(alloc, found, command),
        None => Err(WordsRefusal::BadWords(WordsFault::Usage)),
    }
}

/// The job of words that begin with a command.
fn read_commands(alloc: Global, words: &[String]) -> Result<Job, WordsRefusal>
    ensures read { IsReading (command_job (texts words.now)) result }
    ensures within { IfOk result IsJob }
{
    match matches_in(alloc, words)? {
        Some(matches) => read_matches(alloc, &matches),
        None => Err(WordsRefusal::BadWords(WordsFault::Usage)),
    }
}

/// Whether a word asks for help.
fn is_help(word: &str) -> bool
    ensures { result ≡ is_help word.now }
{
    word == "--help" || word == "-h" || word == "help"
}

/// What a word asks for that stands alone.
fn asked_by(word: &str) -> Option<Job>
    ensures { result ≡ asked_by word.now }
{
    if is_help(word) {
        Some(Job::Help)
    } else if word == "--version" {
        Some(Job::Version)
    } else {
        None
    }
}

/// What words ask for of which there is one alone.
fn asked_alone(words: &[String]) -> Option<Job>
    ensures { result ≡ asked_alone (texts words.now) }
{
    match words {
        [word] => asked_by(word.as_str()),
        _ => None,
    }
}

/// The job that the words ask for.
#[tactic(auto, using(crate::proofs::AskedLemmas::alone_read, crate::proofs::AskedLemmas::alone_is_job, crate::proofs::AskedLemmas::none_alone))]
pub fn read_words(alloc: Global, words: &[String]) -> Result<Job, WordsRefusal>
    ensures read { IsReading (job_of (texts words.now)) result }
    ensures within { IfOk result IsJob }
{
    match asked_alone(words) {
        Some(job) => Ok(job),
        None => read_commands(alloc, words),
    }
}

/// Words are refused as `Usage` exactly where they are no word that stands alone, and `clap` refuses them or what they tell
/// doesn't go together: no job and no value is refused so.
pub fn usage_is_of_grammar()
    ensures { UsageIsOfGrammar }
{}

/// Words that ask for the job of a command begin with the word that names its command.
pub fn first_word_is_command()
    ensures { FirstWordIsCommand }
{}

/// Words that say nothing of a frame but its size ask for the view of that size alone, words that say no format ask for a
/// pixmap, and words that say no rate for instants by the step.
pub fn plain_frames_stay()
    ensures frames { PlainFramesStay }
    ensures formats { PlainFormatsStay }
    ensures steps { StepsStay }
{}
