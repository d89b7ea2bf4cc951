//! Runs over scripts that stand in rows: each is written to the file `a.ass`.

use crate::runs::{Ran, over_files, ran_told};
use crate::scripts::long_script;
use crate::telling::{lines, parted, shown};
use ass_io::Rt;
use ass_num::Mem;
use bstr::BStr;
use std::alloc::Global;
use std::fs;
use std::test::Fail;

/// Writes the file of a script.
fn write_file(rt: &HostRuntime, bytes: &[u8]) -> Result<(), Fail> {
    fs::write(rt, "a.ass", bytes)?;
    Ok(())
}

/// Adds lines that end at bars.
fn add_lines(alloc: Global, text: &str, script: &mut String) -> Mem<()> {
    let text = lines(alloc, text)?;
    Ok(script.push_str(text.as_str())?)
}

/// Writes a script, which a file begins, and which ends with lines that end at bars.
pub fn write_script(rt: &HostRuntime, head: &str, text: &str) -> Result<(), Fail> {
    let mut script = fs::read_to_string(rt, head)?;
    add_lines(rt.alloc(), text, &mut script)?;
    write_file(rt, script.as_bytes())
}

/// A run over a script that a file begins: the words, a bar, and the rest of the script.
fn over_text(lent: &impl Rt, rt: &HostRuntime, head: &str, question: &str) -> Result<Ran, Fail> {
    let (line, text) = parted(question, " |");
    write_script(rt, head, text)?;
    Ok(over_files(lent, rt, line)?)
}

/// What comes of a run over a script that a file begins.
pub fn told(lent: &impl Rt, rt: &HostRuntime, head: &str, question: &str) -> Result<String, Fail> {
    let ran = over_text(lent, rt, head, question)?;
    Ok(ran_told(rt.alloc(), &ran)?)
}

/// Whether a run was done, and wrote these bytes.
fn wrote(ran: &Ran, bytes: &[u8]) -> bool {
    ran.exit == 0 && ran.frames.bytes() == bytes
}

/// Whether bytes are a script that is written again as the same bytes.
fn is_kept(lent: &impl Rt, rt: &HostRuntime, bytes: &[u8]) -> Result<bool, Fail> {
    write_file(rt, bytes)?;
    let again = over_files(lent, rt, "write a.ass")?;
    Ok(wrote(&again, bytes))
}

/// What comes of writing a script, and whether what was written is written again as the same bytes.
pub fn written(lent: &impl Rt, rt: &HostRuntime, question: &str) -> Result<String, Fail> {
    let ran = over_text(lent, rt, "none.ass", question)?;
    let kept = is_kept(lent, rt, ran.frames.bytes())?;
    let (report, image) = (BStr::new(ran.report.bytes()), BStr::new(ran.frames.bytes()));
    Ok(shown(rt.alloc(), &(ran.exit, report, image, kept))?)
}

fn write_lines(rt: &HostRuntime, count: &str) -> Result<(), Fail> {
    let script = long_script(rt.alloc(), count)?;
    write_file(rt, script.as_bytes())
}

/// A check of a script of so many lines.
pub fn long_check(lent: &impl Rt, rt: &HostRuntime, count: &str) -> Result<String, Fail> {
    write_lines(rt, count)?;
    let ran = over_files(lent, rt, "check a.ass dot.bdf")?;
    Ok(ran_told(rt.alloc(), &ran)?)
}
