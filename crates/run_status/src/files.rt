//! Files, scripts and fonts by their names.

ghost use Rattle.std.specs.Prelude.{◌≡◌, ◌≢◌, ◌≤◌, All, IfOk, length, Err};
ghost use Rattle.ass_num.specs.Limits.{max_file_bytes};
ghost use Rattle.ass_io.specs.Fetches.{fetch_change};
ghost use Rattle.ass_script.specs.Ranges.{IsScript};
ghost use Rattle.bdf_font.specs.Ranges.{IsFont};
ghost use Rattle.run_status.specs.Fetches.{IsFileFetched};
ghost use Rattle.run_status.specs.Files.{AsksBytes, AsksFonts, AsksScript, IsAnswered, IsAnswerReadCounted, OwnFontsAsked, ScriptAsked};
ghost use Rattle.run_status.specs.declared.status.Status.TheVariants.{OutOfMemory as memory_status};

use crate::causes::{embedded_status, font_status, script_status};
use crate::font_fault::FontPlace;
use crate::inputs::Inputs;
use crate::{Status, What};
use ass_io::{Fetch, MAX_FILE_BYTES, Shelf};
use ass_num::{Items, Text};
use ass_script::read_script;
use bdf_font::{Font, read_fonts};
use embedded_fonts::{one_embedded_answer, read_embedded_fonts};
use run_words::ScriptSource;
use std::alloc::Global;

/// The bytes of a file.
fn fetch_file<S: Shelf>(alloc: Global, shelf: &mut S, name: &Text) -> Result<Items<u8>, Status>
    ensures kept { S.told shelf.new ≡ S.told shelf.old }
    ensures read { IsAnswered (AsksBytes name.now) (S.told shelf.old name.now) name.now result }
    ensures fetched { IsFileFetched (AsksBytes name.now) name.now (fetch_change (S.log shelf.old) (S.log shelf.new)) result }
    ensures counted { IsAnswerReadCounted result (S.faults shelf.old) (S.faults shelf.new) }
    ensures short { IfOk result (λ bytes. length bytes ≤ max_file_bytes) }
{
    // The name is copied first, so that it is at hand whatever the shelf answers.
    let name = Text::copy(alloc, name.as_str())?;
    let mut bytes = Vec::new(alloc);
    match shelf.fetch(alloc, name.as_str(), &mut bytes) {
        Fetch::Got => Ok(Items::from_vec(bytes)),
        Fetch::Missing => Err(Status::NoSuchFile(name)),
        Fetch::Failed => Err(Status::ReadFault(name)),
        Fetch::TooLarge => Err(Status::TooLarge(What::Bytes, MAX_FILE_BYTES)),
        Fetch::OutOfMemory => Err(Status::OutOfMemory),
    }
}

/// The fonts that the script of these bytes holds, where they are used.
fn own_fonts(alloc: Global, used: bool, script: &[u8]) -> Result<Items<Font>, Status>
    requires { length script.now ≤ max_file_bytes }
    ensures asked { result ≢ Err memory_status → OwnFontsAsked used script.now result }
    ensures fonts { IfOk result (All IsFont) }
{
    if !used {
        return Ok(Items::new(alloc));
    }
    match read_embedded_fonts(alloc, script) {
        Ok(fonts) => Ok(fonts),
        Err(refusal) => Err(embedded_status(refusal)),
    }
}

/// The script of these bytes, with its own fonts where they are used.
fn script_in(alloc: Global, own: bool, bytes: &[u8]) -> Result<Inputs, Status>
    requires { length bytes.now ≤ max_file_bytes }
    ensures asked { result ≢ Err memory_status → ScriptAsked own bytes.now result }
    ensures script { IfOk result (λ inputs. IsScript inputs.script) }
    ensures fonts { IfOk result (λ inputs. All IsFont inputs.fonts) }
{
    one_embedded_answer();
    let script = match read_script(alloc, bytes) {
        Ok(script) => script,
        Err(refusal) => return Err(script_status(refusal)),
    };
    let fonts = own_fonts(alloc, own, bytes)?;
    Ok(Inputs { script, fonts })
}

/// The script of a file, with its own fonts where they are used.
pub fn fetch_script<S: Shelf>(
    alloc: Global,
    shelf: &mut S,
    source: &ScriptSource,
) -> Result<Inputs, Status>
    ensures kept { S.told shelf.new ≡ S.told shelf.old }
    ensures read { IsAnswered (AsksScript source.now.own_fonts source.now.name) (S.told shelf.old source.now.name) source.now.name result }
    ensures fetched { IsFileFetched (AsksScript source.now.own_fonts source.now.name) source.now.name
        (fetch_change (S.log shelf.old) (S.log shelf.new)) result }
    ensures counted { IsAnswerReadCounted result (S.faults shelf.old) (S.faults shelf.new) }
    ensures script { IfOk result (λ inputs. IsScript inputs.script) }
    ensures fonts { IfOk result (λ inputs. All IsFont inputs.fonts) }
{
    let bytes = fetch_file(alloc, shelf, &source.name)?;
    script_in(alloc, source.own_fonts, bytes.as_slice())
}

/// The fonts of a file, whose place among the files is `index`.
pub fn fetch_fonts<S: Shelf>(
    alloc: Global,
    shelf: &mut S,
    index: usize,
    name: &Text,
) -> Result<Items<Font>, Status>
    ensures kept { S.told shelf.new ≡ S.told shelf.old }
    ensures read { IsAnswered (AsksFonts index name.now) (S.told shelf.old name.now) name.now result }
    ensures fetched { IsFileFetched (AsksFonts index name.now) name.now (fetch_change (S.log shelf.old) (S.log shelf.new)) result }
    ensures counted { IsAnswerReadCounted result (S.faults shelf.old) (S.faults shelf.new) }
    ensures fonts { IfOk result (All IsFont) }
{
    let bytes = fetch_file(alloc, shelf, name)?;
    match read_fonts(alloc, bytes) {
        Ok(fonts) => Ok(fonts),
        Err(refusal) => Err(font_status(FontPlace::Named(index), refusal)),
    }
}
