//! What a job works on.

ghost use Rattle.std.specs.Prelude.{◌≡◌, ◌≢◌, ◌<◌, ◌++◌, All, Err, IfOk, OnOk, length};
ghost use Rattle.ass_io.specs.Fetches.{fetch_change};
ghost use Rattle.ass_script.specs.Ranges.{IsScript};
ghost use Rattle.bdf_font.specs.Ranges.{IsFont};
ghost use Rattle.run_status.specs.Fetches.{AreFetched, AreFilesFetched, AreFontsFetched, IsFontFileFetched};
ghost use Rattle.run_status.specs.Files.{IsAnswerReadCounted};
ghost use Rattle.run_status.specs.declared.status.Status.TheVariants.{OutOfMemory as memory_status};
ghost use Rattle.run_status.specs.Inputs.{AreFilesRead, AreFontsRead, AreRead, IsFontFileRead};

use crate::files::{fetch_fonts, fetch_script};
use crate::{Status, What};
use ass_io::Shelf;
use ass_num::{Items, Mem, Text};
use ass_script::Script;
use bdf_font::Font;
use run_words::ScriptSource;
use std::alloc::Global;

/// The most fonts of a job.
pub const MAX_FONTS: usize = 64;

/// A script, and fonts in the order of their files.
#[derive(Debug, Drop)]
pub struct Inputs {
    pub script: Script,
    pub fonts: Items<Font>,
}

/// The fonts of the file at a place of the names.
fn fetch_fonts_at<S: Shelf>(
    alloc: Global,
    shelf: &mut S,
    names: &[Text],
    index: usize,
) -> Result<Items<Font>, Status>
    requires { index < length names.now }
    ensures kept { S.told shelf.new ≡ S.told shelf.old }
    ensures read { IsFontFileRead (S.told shelf.old) names.now index result }
    ensures fetched { IsFontFileFetched names.now index (fetch_change (S.log shelf.old) (S.log shelf.new)) result }
    ensures counted { IsAnswerReadCounted result (S.faults shelf.old) (S.faults shelf.new) }
    ensures fonts { IfOk result (All IsFont) }
{
    fetch_fonts(alloc, shelf, index, &names[index])
}

/// Puts the fonts of a file behind others.
fn append_fonts(all: &mut Vec<Font>, file: Items<Font>) -> Mem<()>
    ensures { OnOk result (all.new.items ≡ all.old.items ++ file) }
{
    all.append(&mut file.into_vec())?;
    Ok(())
}

/// The fonts of all files together, and behind them those of the script.
fn fetch_all_fonts<S: Shelf>(
    alloc: Global,
    shelf: &mut S,
    names: &[Text],
    own: Items<Font>,
) -> Result<Items<Font>, Status>
    requires { All IsFont own }
    ensures kept { S.told shelf.new ≡ S.told shelf.old }
    ensures read { result ≢ Err memory_status → AreFontsRead (S.told shelf.old) names.now own result }
    ensures fetched { AreFontsFetched names.now own (fetch_change (S.log shelf.old) (S.log shelf.new)) result }
    ensures counted { IsAnswerReadCounted result (S.faults shelf.old) (S.faults shelf.new) }
    ensures fonts { IfOk result (All IsFont) }
{
    let mut all = Vec::new(alloc);
    for index in 0..names.len() {
        let file = fetch_fonts_at(alloc, shelf, names, index)?;
        append_fonts(&mut all, file)?;
    }
    append_fonts(&mut all, own)?;
    if all.len() > MAX_FONTS {
        return Err(Status::TooLarge(What::Fonts, MAX_FONTS));
    }
    Ok(Items::from_vec(all))
}

/// The script and the fonts of files.
fn fetch_files<S: Shelf>(
    alloc: Global,
    shelf: &mut S,
    script: &ScriptSource,
    fonts: &[Text],
) -> Result<Inputs, Status>
    ensures kept { S.told shelf.new ≡ S.told shelf.old }
    ensures read { AreFilesRead (S.told shelf.old) script.now fonts.now result }
    ensures fetched { AreFilesFetched script.now fonts.now (fetch_change (S.log shelf.old) (S.log shelf.new)) result }
    ensures counted { IsAnswerReadCounted result (S.faults shelf.old) (S.faults shelf.new) }
    ensures script { IfOk result (λ inputs. IsScript inputs.script) }
    ensures fonts { IfOk result (λ inputs. All IsFont inputs.fonts) }
{
    let read = fetch_script(alloc, shelf, script)?;
    let fonts = fetch_all_fonts(alloc, shelf, fonts, read.fonts)?;
    Ok(Inputs {
        script: read.script,
        fonts,
    })
}

/// Reads the script of this name with its own fonts, where these are used, and then all fonts of the files of these
/// names, in order, behind which its own stand. The first file that can't be read decides the answer.
/// `TooLarge(Fonts, 64)` comes before any of them where there are more names of fonts than that, and behind all of them
/// where there are more fonts together.
pub fn read_inputs<S: Shelf>(
    alloc: Global,
    shelf: &mut S,
    script: &ScriptSource,
    fonts: &[Text],
) -> Result<Inputs, Status>
    ensures kept { S.told shelf.new ≡ S.told shelf.old }
    ensures read { AreRead (S.told shelf.old) script.now fonts.now result }
    ensures fetched { AreFetched script.now fonts.now (fetch_change (S.log shelf.old) (S.log shelf.new)) result }
    ensures counted { IsAnswerReadCounted result (S.faults shelf.old) (S.faults shelf.new) }
    ensures script { IfOk result (λ inputs. IsScript inputs.script) }
    ensures fonts { IfOk result (λ inputs. All IsFont inputs.fonts) }
{
    if fonts.len() > MAX_FONTS {
        return Err(Status::TooLarge(What::Fonts, MAX_FONTS));
    }
    fetch_files(alloc, shelf, script, fonts)
}
