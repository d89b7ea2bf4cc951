//! What a command is asked for, by what was found for its arguments. All of it is cold: what is called more than once has one
//! copy.

ghost use Rattle.std.specs.Prelude.{◌≡◌, ◌≤◌, ◌^◌, ◌<◌, IfOk, map, pos, option_and_then, option_map, unwrap_or};
ghost use Rattle.clap.specs.Words.{all_of, found_of, rows_of};
ghost use Rattle.frame_rate.specs.Rates.{IsFrameRate};
ghost use Rattle.frame_view.specs.declared.view.LetterWidth.TheVariants.{Canvas};
ghost use Rattle.run_words.specs.Arguments.{argument_name, most_of};
ghost use Rattle.run_words.specs.Asked.{are_stills_apart, changes_of, fits, first_bad, fonts_at, format_at, frame_at, frame_of, goes_together, instants_at};
ghost use Rattle.run_words.specs.Asked.{is_index_apart, is_just_one, is_paced, is_shared_out, is_told, is_video, is_video_apart, job_for, mode_at};
ghost use Rattle.run_words.specs.Asked.{number_at, play_format_at, play_job, play_of, rate_at, sampling_at, script_at, size_at, source_at, stills_of};
ghost use Rattle.run_words.specs.Asked.{text_at, video_at};
ghost use Rattle.ass_script.specs.Matrices.{video_colours_named};
ghost use Rattle.value_texts.specs.Values.{aspect_in, content_in, letters_in, rate_in, storage_in};

use crate::argument::{Argument, Kind};
use crate::command::{Command, sharing_arguments};
use crate::job::{
    ChangesJob, FrameFormat, FrameJob, Job, Mode, PlayFormat, PlayJob, ScriptSource, StillsJob,
};
use crate::values::{format_in, is_of_kind, is_video_word, mode_in, sampling_in};
use ass_num::{Items, Mem, Size, Text};
use ass_script::{VideoColours, video_colours_named};
use clap::ArgMatches;
use frame_rate::{FrameRate, Instants};
use frame_view::{FrameView, LetterWidth, PixelAspect, PixelRect};
use std::alloc::Global;
use value_texts::{aspect_in, content_in, letters_in, number_within, rate_in, size_in, storage_in};
use y4m_text::{Sampling, VideoChoice};

/// What stands for a budget that isn't given, in bytes.
const ABSENT_BUDGET: u64 = 67_108_864;

/// What stands for a batch that isn't given.
const ABSENT_BATCH: u32 = 16;

/// The text that was found for an argument.
#[inline(never)]
pub fn text_at<'a>(found: &ArgMatches<'a>, argument: Argument) -> Option<&'a str>
    ensures { option_map (λ text. text.now) result ≡ text_at (rows_of (found_of found.now)) argument }
{
    found.get_str(argument.name())
}

/// Whether what was found for an argument is of its rule.
fn fits(found: &ArgMatches, argument: Argument) -> bool
    ensures { result ≡ fits (rows_of (found_of found.now)) argument }
{
    match text_at(found, argument) {
        Some(text) => is_of_kind(argument.kind(), text),
        None => true,
    }
}

/// The first argument of a command of which what was found isn't of its rule.
pub fn first_bad(found: &ArgMatches, command: Command) -> Option<Argument>
    ensures { result ≡ first_bad (rows_of (found_of found.now)) command }
{
    for argument in command.arguments() {
        if !fits(found, *argument) {
            return Some(*argument);
        }
    }
    None
}

/// Whether one is there, and not the other.
fn is_just_one(step: Option<&str>, rate: Option<&str>) -> bool
    ensures { result ≡ is_just_one (option_map (λ text. text.now) step.entry) (option_map (λ text. text.now) rate.entry) }
{
    match (step, rate) {
        (None, Some(_)) | (Some(_), None) => true,
        (None, None) | (Some(_), Some(_)) => false,
    }
}

/// Whether just one of a step and a rate is told, and just one of an end and a number of frames.
#[inline(never)]
fn is_paced(found: &ArgMatches) -> bool
    ensures { result ≡ is_paced (rows_of (found_of found.now)) }
{
    is_just_one(
        text_at(found, Argument::Step),
        text_at(found, Argument::Rate),
    ) && is_just_one(
        text_at(found, Argument::To),
        text_at(found, Argument::Frames),
    )
}

/// Whether an option that stands alone is there.
#[inline(never)]
pub fn is_told(found: &ArgMatches, argument: Argument) -> bool
    ensures { result ≡ is_told (rows_of (found_of found.now)) argument }
{
    match text_at(found, argument) {
        Some(text) => text == "true",
        None => false,
    }
}

/// Whether something is told of how the work of a play is shared out.
fn is_shared_out(found: &ArgMatches) -> bool
    ensures { result ≡ is_shared_out (rows_of (found_of found.now)) }
{
    for argument in sharing_arguments() {
        if text_at(found, *argument).is_some() {
            return true;
        }
    }
    false
}

/// Whether images are asked for as a video.
fn is_video(found: &ArgMatches) -> bool
    ensures { result ≡ is_video (rows_of (found_of found.now)) }
{
    match text_at(found, Argument::Format) {
        Some(text) => is_video_word(text),
        None => false,
    }
}

/// Whether a matrix and a sampling are told of a video alone.
fn is_video_apart(found: &ArgMatches) -> bool
    ensures { result ≡ is_video_apart (rows_of (found_of found.now)) }
{
    is_video(found)
        || text_at(found, Argument::Matrix).is_none() && text_at(found, Argument::Chroma).is_none()
}

/// Whether changed images are no video and the work of their play isn't shared out, and the images of another play aren't cropped.
fn are_stills_apart(found: &ArgMatches) -> bool
    ensures { result ≡ are_stills_apart (rows_of (found_of found.now)) }
{
    if is_told(found, Argument::Changed) {
        !is_shared_out(found) && !is_video(found)
    } else {
        !is_told(found, Argument::Crop)
    }
}

/// Whether a list of changed images is made of whole frames, where there is one.
fn is_index_apart(found: &ArgMatches) -> bool
    ensures { result ≡ is_index_apart (rows_of (found_of found.now)) }
{
    match text_at(found, Argument::Index) {
        Some(_) => {
            let is_cropped = is_told(found, Argument::Crop);
            is_told(found, Argument::Changed) && !is_cropped
        }
        None => true,
    }
}

/// Whether what is told to a command goes together.
pub fn goes_together(found: &ArgMatches, command: Command) -> bool
    ensures { result ≡ goes_together (rows_of (found_of found.now)) command }
{
    match command {
        Command::Play => {
            is_paced(found)
                && are_stills_apart(found)
                && is_index_apart(found)
                && is_video_apart(found)
        }
        Command::Frame => !is_video(found),
        Command::Changes => is_paced(found),
        Command::Check | Command::Selftest | Command::Write => true,
    }
}

/// The number of an argument, or what stands for it where it isn't given.
#[inline(never)]
fn number_at(found: &ArgMatches, argument: Argument, absent: u64) -> u64
    ensures value { result ≡ number_at (rows_of (found_of found.now)) argument absent }
    ensures small { absent ≤ most_of argument → result ≤ most_of argument }
{
    let Some(text) = text_at(found, argument) else {
        return absent;
    };
    let Kind::Number(least, most) = argument.kind() else {
        return absent;
    };
    match number_within(text, least, most) {
        Some(number) => number,
        None => absent,
    }
}

/// The milliseconds of an argument, or of what stands for it.
fn milliseconds_at(found: &ArgMatches, argument: Argument, absent: u32) -> i64
    requires small { most_of argument < 2 ^ 63 }
    requires within { absent ≤ most_of argument }
    ensures { result ≡ pos (number_at (rows_of (found_of found.now)) argument absent) }
{
    number_at(found, argument, u64::from(absent)) as i64
}

/// A number of 32 bits.
#[inline(never)]
fn count_at(found: &ArgMatches, argument: Argument, absent: u32) -> u32
    requires small { most_of argument < 2 ^ 32 }
    requires within { absent ≤ most_of argument }
    ensures { result ≡ number_at (rows_of (found_of found.now)) argument absent }
{
    number_at(found, argument, u64::from(absent)) as u32
}

/// The size of the frames.
#[inline(never)]
fn size_at(found: &ArgMatches) -> Size
    ensures { result ≡ size_at (rows_of (found_of found.now)) }
{
    match text_at(found, Argument::Size) {
        Some(text) => match size_in(text) {
            Some(size) => size,
            None => Size { w: 1, h: 1 },
        },
        None => Size { w: 1, h: 1 },
    }
}

/// Where the picture stands in the frames.
fn content_at(found: &ArgMatches) -> Option<PixelRect>
    ensures { result ≡ option_and_then content_in (text_at (rows_of (found_of found.now)) Argument.Content) }
{
    content_in(text_at(found, Argument::Content)?)
}

/// The size of the video.
fn storage_at(found: &ArgMatches) -> Option<Size>
    ensures { result ≡ option_and_then storage_in (text_at (rows_of (found_of found.now)) Argument.Storage) }
{
    storage_in(text_at(found, Argument::Storage)?)
}

/// The shape of its pixels.
fn aspect_at(found: &ArgMatches) -> Option<PixelAspect>
    ensures { result ≡ option_and_then aspect_in (text_at (rows_of (found_of found.now)) Argument.Aspect) }
{
    aspect_in(text_at(found, Argument::Aspect)?)
}

/// The rule of letters, or `Canvas`.
fn letters_at(found: &ArgMatches) -> LetterWidth
    ensures { result ≡ unwrap_or (option_and_then letters_in (text_at (rows_of (found_of found.now)) Argument.Letters)) Canvas }
{
    match text_at(found, Argument::Letters) {
        Some(text) => match letters_in(text) {
            Some(letters) => letters,
            None => LetterWidth::Canvas,
        },
        None => LetterWidth::Canvas,
    }
}

/// What the frames are to the script.
#[inline(never)]
fn frame_at(found: &ArgMatches) -> FrameView
    ensures { result ≡ frame_at (rows_of (found_of found.now)) }
{
    FrameView {
        size: size_at(found),
        content: content_at(found),
        storage: storage_at(found),
        aspect: aspect_at(found),
        letters: letters_at(found),
        scale: count_at(found, Argument::Scale, 1_000),
        bars: false,
    }
}

/// The format, or `Ppm`.
#[inline(never)]
fn format_at(found: &ArgMatches) -> FrameFormat
    ensures { result ≡ format_at (rows_of (found_of found.now)) }
{
    match text_at(found, Argument::Format) {
        Some(text) => match format_in(text) {
            Some(format) => format,
            None => FrameFormat::Ppm,
        },
        None => FrameFormat::Ppm,
    }
}

/// The colours of a video, where it isn't those for which the script is.
fn colours_at(found: &ArgMatches) -> Option<VideoColours>
    ensures { result ≡ option_and_then video_colours_named (text_at (rows_of (found_of found.now)) Argument.Matrix) }
{
    video_colours_named(text_at(found, Argument::Matrix)?)
}

/// The sampling of a video, or `Yuv420`.
fn sampling_at(found: &ArgMatches) -> Sampling
    ensures { result ≡ sampling_at (rows_of (found_of found.now)) }
{
    match text_at(found, Argument::Chroma) {
        Some(text) => match sampling_in(text) {
            Some(sampling) => sampling,
            None => Sampling::Yuv420,
        },
        None => Sampling::Yuv420,
    }
}

/// What is asked for in a video.
fn video_at(found: &ArgMatches) -> VideoChoice
    ensures { result ≡ video_at (rows_of (found_of found.now)) }
{
    VideoChoice {
        colours: colours_at(found),
        sampling: sampling_at(found),
    }
}

/// How the frames of a play are written.
fn play_format_at(found: &ArgMatches) -> PlayFormat
    ensures { result ≡ play_format_at (rows_of (found_of found.now)) }
{
    if is_video(found) {
        PlayFormat::Video(video_at(found))
    } else {
        PlayFormat::Image(format_at(found))
    }
}

/// The rate that is given.
fn given_rate(found: &ArgMatches) -> Option<FrameRate>
    ensures { result ≡ option_and_then rate_in (text_at (rows_of (found_of found.now)) Argument.Rate) }
{
    rate_in(text_at(found, Argument::Rate)?)
}

/// The rate, or that of the step.
#[tactic(auto, using(crate::proofs::AskedLemmas::rate_range))]
fn rate_at(found: &ArgMatches) -> FrameRate
    ensures value { result ≡ rate_at (rows_of (found_of found.now)) }
    ensures rate { IsFrameRate result }
{
    match given_rate(found) {
        Some(rate) => rate,
        None => FrameRate::of_step(number_at(found, Argument::Step, 1)),
    }
}

/// The instants at the rate, so many or those before the end.
#[inline(never)]
fn instants_at(found: &ArgMatches) -> Instants
    ensures { result ≡ instants_at (rows_of (found_of found.now)) }
{
    let from = number_at(found, Argument::From, 0);
    let rate = rate_at(found);
    match text_at(found, Argument::Frames) {
        Some(_) => Instants::counted(from, number_at(found, Argument::Frames, 1), rate),
        None => Instants::before(from, number_at(found, Argument::To, 0), rate),
    }
}

/// The mode, or `Settled`.
fn mode_at(found: &ArgMatches) -> Mode
    ensures { result ≡ mode_at (rows_of (found_of found.now)) }
{
    match text_at(found, Argument::Mode) {
        Some(text) => match mode_in(text) {
            Some(mode) => mode,
            None => Mode::Settled,
        },
        None => Mode::Settled,
    }
}

/// The name of the script.
#[inline(never)]
fn script_at(alloc: Global, found: &ArgMatches) -> Mem<Text>
    ensures { IfOk result (λ name. name ≡ script_at (rows_of (found_of found.now))) }
{
    match text_at(found, Argument::Script) {
        Some(text) => Text::copy(alloc, text),
        None => Text::copy(alloc, ""),
    }
}

/// The script, and whether the fonts that it holds are used.
#[inline(never)]
fn source_at(alloc: Global, found: &ArgMatches) -> Mem<ScriptSource>
    ensures { IfOk result (λ source. source ≡ source_at (rows_of (found_of found.now))) }
{
    Ok(ScriptSource {
        name: script_at(alloc, found)?,
        own_fonts: is_told(found, Argument::ScriptFonts),
    })
}

/// A copy of texts.
fn copied(alloc: Global, texts: &[&str]) -> Mem<Items<Text>>
    ensures { IfOk result (λ copy. copy ≡ map (λ text. text.now) texts.now) }
{
    let mut copy = Items::new(alloc);
    for text in texts {
        copy.push(Text::copy(alloc, text)?)?;
    }
    Ok(copy)
}

/// The words that were found for the fonts.
fn fonts_found<'f, 'a>(found: &'f ArgMatches<'a>) -> Option<&'f [&'a str]>
    ensures { option_map (λ texts. map (λ text. text.now) texts.now) result ≡ all_of (argument_name Argument.Fonts) (rows_of (found_of found.now)) }
{
    found.get_raw(Argument::Fonts.name())
}

/// The names of the fonts, in order.
#[inline(never)]
fn fonts_at(alloc: Global, found: &ArgMatches) -> Mem<Items<Text>>
    ensures { IfOk result (λ names. names ≡ fonts_at (rows_of (found_of found.now))) }
{
    match fonts_found(found) {
        Some(texts) => copied(alloc, texts),
        None => Ok(Items::new(alloc)),
    }
}

/// What a `play` is asked for.
fn play_of(found: &ArgMatches) -> PlayJob
    ensures { result ≡ play_of (rows_of (found_of found.now)) }
{
    PlayJob {
        instants: instants_at(found),
        size: size_at(found),
        feeders: count_at(found, Argument::Feeders, 1),
        renderers: count_at(found, Argument::Renderers, 1),
        batch: count_at(found, Argument::Batch, ABSENT_BATCH),
        again: count_at(found, Argument::Again, 0),
        times: count_at(found, Argument::Times, 1),
        ahead: count_at(found, Argument::Ahead, 0),
        bands: count_at(found, Argument::Bands, 1),
        format: play_format_at(found),
        budget: number_at(found, Argument::Budget, ABSENT_BUDGET),
        mode: mode_at(found),
    }
}

/// What a `play` of changed images is asked for.
fn stills_of(found: &ArgMatches) -> StillsJob
    ensures { result ≡ stills_of (rows_of (found_of found.now)) }
{
    StillsJob {
        instants: instants_at(found),
        size: size_at(found),
        format: format_at(found),
        crop: is_told(found, Argument::Crop),
        budget: number_at(found, Argument::Budget, ABSENT_BUDGET),
    }
}

/// The job of a `play`.
fn play_job(alloc: Global, found: &ArgMatches) -> Mem<Job>
    ensures { IfOk result (λ job. job ≡ play_job (rows_of (found_of found.now))) }
{
    let script = source_at(alloc, found)?;
    let fonts = fonts_at(alloc, found)?;
    if is_told(found, Argument::Changed) {
        Ok(Job::Stills(stills_of(found), script, fonts))
    } else {
        Ok(Job::Play(play_of(found), script, fonts))
    }
}

/// What a `frame` is asked for.
fn frame_of(found: &ArgMatches) -> FrameJob
    ensures { result ≡ frame_of (rows_of (found_of found.now)) }
{
    FrameJob {
        at: number_at(found, Argument::At, 0),
        view: frame_at(found),
        format: format_at(found),
        budget: number_at(found, Argument::Budget, ABSENT_BUDGET),
    }
}

/// What a `changes` is asked for.
fn changes_of(found: &ArgMatches) -> ChangesJob
    ensures { result ≡ changes_of (rows_of (found_of found.now)) }
{
    ChangesJob {
        instants: instants_at(found),
        view: frame_at(found),
        budget: number_at(found, Argument::Budget, ABSENT_BUDGET),
    }
}

/// The job of a command.
pub fn job_for(alloc: Global, found: &ArgMatches, command: Command) -> Mem<Job>
    ensures { IfOk result (λ job. job ≡ job_for (rows_of (found_of found.now)) command) }
{
    match command {
        Command::Check => Ok(Job::Check(source_at(alloc, found)?, fonts_at(alloc, found)?)),
        Command::Frame => Ok(Job::Frame(
            frame_of(found),
            source_at(alloc, found)?,
            fonts_at(alloc, found)?,
        )),
        Command::Play => play_job(alloc, found),
        Command::Selftest => Ok(Job::Selftest(
            count_at(found, Argument::Seed, 0),
            count_at(found, Argument::Events, 1),
            count_at(found, Argument::Workers, 1),
        )),
        Command::Changes => Ok(Job::Changes(
            changes_of(found),
            source_at(alloc, found)?,
            fonts_at(alloc, found)?,
        )),
        Command::Write => Ok(Job::Write(
            milliseconds_at(found, Argument::Later, 0),
            milliseconds_at(found, Argument::Earlier, 0),
            script_at(alloc, found)?,
        )),
    }
}
