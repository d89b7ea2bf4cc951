//! Answers rows about TrueType fonts that it reads: what a font is read as, its glyphs and its codes. `stdout` has what
//! a model of the format says.
#![tactic(auto)]

mod asking;
mod glyphs;
mod reading;
mod sets;
mod telling;

use asking::{answer, changed, shortened};
use ass_num::Mem;
use bdf_font::FontSet;
use sets::{added, no_fonts, of_set};
use std::alloc::Global;
use std::io;
use std::test::Fail;

/// Bytes with those behind them that a row spells.
fn longer(alloc: Global, held: Vec<u8>, text: &str) -> Result<Vec<u8>, Fail> {
    let mut held = held;
    held.extend_from_slice(hex::decode(alloc, text)?.as_slice())?;
    Ok(held)
}

/// What a row asks of the bytes of a file.
fn told(alloc: Global, held: &[u8], kind: &str, rest: &str) -> Mem<String> {
    match kind {
        "with" => changed(alloc, held, rest),
        "cut" => shortened(alloc, held, rest),
        _ => answer(alloc, held, kind, rest),
    }
}

/// What rows have spelled: the bytes of a file, and a set of fonts.
#[derive(Drop)]
struct Spelled {
    bytes: Vec<u8>,
    set: FontSet,
}

/// Prints what a row asks. What the rows spell behind it: what was spelled before it, or where it spells some more, or
/// begins anew, something else.
fn answered(rt: &HostRuntime, spelled: Spelled, row: &str) -> Result<Spelled, Fail> {
    let (kind, rest) = row.split_once(' ').unwrap_or((row, ""));
    let mut spelled = spelled;
    match kind {
        "bytes" => {
            spelled.bytes = longer(rt.alloc(), spelled.bytes, rest)?;
            return Ok(spelled);
        }
        "file" => {
            println!(rt; "{row}")?;
            spelled.bytes = Vec::new(rt.alloc());
            return Ok(spelled);
        }
        _ => (),
    }
    let text = match kind {
        "set" => {
            spelled.set = no_fonts(rt.alloc());
            String::new(rt.alloc())
        }
        "add" => added(rt.alloc(), &mut spelled.set, spelled.bytes.as_slice())?,
        "find" | "char" => of_set(rt.alloc(), &spelled.set, kind, rest)?,
        _ => told(rt.alloc(), spelled.bytes.as_slice(), kind, rest)?,
    };
    println!(rt; "{row}: {text}")?;
    Ok(spelled)
}

fn main(rt: HostRuntime) -> Result<(), Fail> {
    let text = io::read_to_string(rt.alloc(), rt.reader())?;
    let mut spelled = Spelled {
        bytes: Vec::new(rt.alloc()),
        set: no_fonts(rt.alloc()),
    };
    for row in text.as_str().lines() {
        spelled = answered(&rt, spelled, row)?;
    }
    Ok(())
}
