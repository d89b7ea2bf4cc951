//! Answers rows about tables of PostScript outlines that it reads: what a table is read as, and the contours of its
//! glyphs. `stdout` has what a model of the format says.
#![tactic(auto)]

ghost use Rattle.std.specs.Prelude.{◌≤◌, length};
ghost use Rattle.ass_num.specs.Limits.{max_file_bytes};
ghost use Rattle.cff_font.specs.Ranges.{IsFileSpan};

use ass_num::{Mem, Point};
use cff_font::{Span, cff_contours, read_cff};
use outline_points::Stroke;
use std::alloc::Global;
use std::io;
use std::test::Fail;

/// The most bytes of a file here.
const MOST_BYTES: usize = 67_108_864;

/// A word's number; 0 for what is none.
fn number(word: &str) -> u32 {
    word.parse::<u32>().unwrap_or(0)
}

fn point_told(alloc: Global, point: &Point) -> Mem<String> {
    let x = point.x;
    let y = point.y;
    Ok(format!(in alloc; " {x},{y}")?)
}

/// A stroke: a letter, and its points.
fn stroke_told(alloc: Global, stroke: &Stroke) -> Mem<String> {
    let mut text = String::new(alloc);
    match stroke {
        Stroke::Line(p) => {
            text.push_str(" L")?;
            text.push_str(point_told(alloc, p)?.as_str())?;
        }
        Stroke::Curve(b, c, d) => {
            text.push_str(" C")?;
            text.push_str(point_told(alloc, b)?.as_str())?;
            text.push_str(point_told(alloc, c)?.as_str())?;
            text.push_str(point_told(alloc, d)?.as_str())?;
        }
    }
    Ok(text)
}

/// A contour; each begins behind a bar.
fn contour_told(alloc: Global, strokes: &[Stroke]) -> Mem<String> {
    let mut text = String::from_str(alloc, " |")?;
    for stroke in strokes {
        text.push_str(stroke_told(alloc, stroke)?.as_str())?;
    }
    Ok(text)
}

/// The table that a row names, held to the bytes that there are.
fn table_of(bytes: &[u8], place: &str, size: &str) -> Span
    requires { length bytes.now ≤ max_file_bytes }
    ensures { IsFileSpan result }
{
    let from = (number(place) as usize).min(bytes.len());
    let to = from + (number(size) as usize).min(bytes.len() - from);
    Span { from, to }
}

/// The contours of a glyph of a font whose em has so many units.
fn glyph_told(alloc: Global, bytes: &[u8], table: Span, units: u16, g: u16) -> Mem<String>
    requires { IsFileSpan table }
{
    let font = match read_cff(bytes, table) {
        Ok(font) => font,
        Err(refusal) => return Ok(format!(in alloc; "{refusal:?}")?),
    };
    let contours = cff_contours(alloc, bytes, &font, units, g)?;
    let mut text = String::new(alloc);
    for k in 0..contours.len() {
        text.push_str(contour_told(alloc, contours.get(k))?.as_str())?;
    }
    Ok(text)
}

/// What a row asks: the font of a table, or the path of a glyph.
fn told(alloc: Global, bytes: &[u8], row: &str) -> Mem<String> {
    let mut words = row.split(' ');
    let kind = words.next().unwrap_or("");
    let place = words.next().unwrap_or("");
    let size = words.next().unwrap_or("");
    let glyph = words.next().unwrap_or("");
    if bytes.len() > MOST_BYTES {
        return Ok(String::new(alloc));
    }
    let table = table_of(bytes, place, size);
    if kind == "glyph" {
        let g = glyph.parse::<u16>().unwrap_or(0);
        let units = words.next().unwrap_or("").parse::<u16>().unwrap_or(1_000);
        return glyph_told(alloc, bytes, table, units, g);
    }
    match read_cff(bytes, table) {
        Ok(font) => Ok(format!(in alloc; "{font:?}")?),
        Err(refusal) => Ok(format!(in alloc; "{refusal:?}")?),
    }
}

fn main(rt: HostRuntime) -> Result<(), Fail> {
    let text = io::read_to_string(rt.alloc(), rt.reader())?;
    let mut bytes = Vec::new(rt.alloc());
    for row in text.as_str().lines() {
        if let Some(spelled) = row.strip_prefix("bytes ") {
            bytes.extend_from_slice(hex::decode(rt.alloc(), spelled)?.as_slice())?;
        } else if row == "file" {
            bytes = Vec::new(rt.alloc());
        } else {
            let answer = told(rt.alloc(), bytes.as_slice(), row)?;
            println!(rt; "{row}:{answer}")?;
        }
    }
    Ok(())
}
