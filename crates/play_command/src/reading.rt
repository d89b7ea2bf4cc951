//! What a play and a selftest work on.

ghost use Rattle.std.specs.Prelude.{◌≡◌, IfOk};
ghost use Rattle.ass_io.specs.Fetches.{fetch_change};
ghost use Rattle.ass_script.specs.Ranges.{IsScript};
ghost use Rattle.run_status.specs.Files.{IsAnswerReadCounted};
ghost use Rattle.play_command.specs.PlayRuns.{IsPlayFetched, IsPlayRead, has_too_many, play_refusal, view_of};
ghost use Rattle.play_command.specs.SelftestRuns.{IsScriptIn, IsSelftestRead, selftest_fonts};
ghost use Rattle.play_command.specs.Working.{AreSelftestInputs, IsWithFont, script_alone};
ghost use Rattle.play_model.specs.Plays.{IsPlayable};
ghost use Rattle.run_words.specs.Jobs.{IsPlay};
ghost use Rattle.text_layout.specs.Fonts.{IsLayoutFontSet};

use ass_events::line_laws;
use ass_io::{MAX_FILE_BYTES, Shelf};
use ass_num::{Items, Mem, OutOfMemory, Text};
use ass_script::{Script, read_script};
use bdf_font::Font;
use generated_script::{generated, grid_font};
use play_shares::has_too_many_frames;
use run_status::{Inputs, MAX_FONTS, Status, What, read_inputs, script_status};
use run_words::{PlayJob, ScriptSource, WordsFault};
use std::alloc::Global;

/// The most images of a play.
const MAX_FRAMES: usize = 1_000_000;

/// Whether a play has too many images. Too many fonts are told before.
fn has_too_many(job: &PlayJob, fonts: &[Text]) -> bool
    requires { IsPlay job.now }
    ensures { result ≡ has_too_many job.now fonts.now }
{
    fonts.len() <= MAX_FONTS && has_too_many_frames(job)
}

/// Why a play is refused before any file is fetched. Words name a font always.
fn play_refusal(job: &PlayJob, fonts: &[Text]) -> Option<Status>
    requires { IsPlay job.now }
    ensures { result ≡ play_refusal job.now fonts.now }
{
    match fonts {
        [] => Some(Status::BadWords(WordsFault::Usage)),
        [_, ..] => {
            if has_too_many(job, fonts) {
                Some(Status::TooLarge(What::Frames, MAX_FRAMES))
            } else {
                None
            }
        }
    }
}

/// Reads the files of a play. None is fetched where the play is refused for its images.
pub fn play_inputs<S: Shelf>(
    alloc: Global,
    shelf: &mut S,
    job: &PlayJob,
    script: &ScriptSource,
    fonts: &[Text],
) -> Result<Inputs, Status>
    requires { IsPlay job.now }
    ensures read { IsPlayRead (S.told shelf.old) job.now script.now fonts.now result }
    ensures fetched { IsPlayFetched job.now script.now fonts.now (fetch_change (S.log shelf.old) (S.log shelf.new)) result }
    ensures counted { IsAnswerReadCounted result (S.faults shelf.old) (S.faults shelf.new) }
    ensures playable { IfOk result (λ inputs. IsPlayable (view_of job.now inputs)) }
{
    line_laws::lines_fit_their_text();
    match play_refusal(job, fonts) {
        Some(status) => Err(status),
        None => read_inputs(alloc, shelf, script, fonts),
    }
}

/// The script of bytes, read as a file that holds them.
#[tactic(auto, using(crate::proofs::ReadLemmas::many_bytes))]
fn script_in(alloc: Global, bytes: &[u8]) -> Result<Script, Status>
    ensures read { IsScriptIn bytes.now result }
    ensures script { IfOk result IsScript }
{
    if bytes.len() > MAX_FILE_BYTES {
        return Err(Status::TooLarge(What::Bytes, MAX_FILE_BYTES));
    }
    match read_script(alloc, bytes) {
        Ok(script) => Ok(script),
        Err(refusal) => Err(script_status(refusal)),
    }
}

/// The generated script.
fn selftest_script(alloc: Global, seed: u32, events: u32) -> Result<Script, Status>
    ensures read { IsSelftestRead seed events result }
    ensures script { IfOk result IsScript }
{
    match generated(alloc, seed, events) {
        Ok(bytes) => script_in(alloc, bytes.as_slice()),
        Err(OutOfMemory) => Err(Status::OutOfMemory),
    }
}

/// The font of a selftest, alone.
#[tactic(auto, using(crate::proofs::SelftestLemmas::grid_alone))]
fn only_font(alloc: Global) -> Mem<Items<Font>>
    ensures font { IfOk result (λ fonts. fonts ≡ selftest_fonts) }
    ensures few { IsLayoutFontSet selftest_fonts }
{
    let mut fonts = Items::new(alloc);
    fonts.push(grid_font(alloc)?)?;
    Ok(fonts)
}

/// A script with the font of a selftest.
fn with_font(alloc: Global, script: Script) -> Result<Inputs, Status>
    ensures { IsWithFont script result }
{
    match only_font(alloc) {
        Ok(fonts) => Ok(Inputs { script, fonts }),
        Err(OutOfMemory) => Err(Status::OutOfMemory),
    }
}

/// The generated script of a selftest, and its font.
pub fn selftest_inputs(alloc: Global, seed: u32, events: u32) -> Result<Inputs, Status>
    ensures read { IsSelftestRead seed events (script_alone result) }
    ensures inputs { IfOk result AreSelftestInputs }
{
    line_laws::lines_fit_their_text();
    match selftest_script(alloc, seed, events) {
        Ok(script) => with_font(alloc, script),
        Err(status) => Err(status),
    }
}
