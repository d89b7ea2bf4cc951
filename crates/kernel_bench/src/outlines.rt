//! Outlines of a font's glyph and of a drawing.

ghost use Rattle.std.specs.Prelude.{◌≡◌, ◌<◌, length, pos, IfOk};
ghost use Rattle.ass_num.specs.Paths.{IsPath};
ghost use Rattle.bdf_font.specs.Ranges.{IsFont};
ghost use Rattle.outline_points.specs.Placing.{IsMatrix};

use crate::laps::Laps;
use crate::stop::Stop;
use crate::telling::tell;
use ass_num::{Items, Matrix, Path};
use bdf_font::{Font, read_fonts};
use drawing_path::read_path;
use fixed_outline::{outline_of_path, quads_of, runs_of};
use std::alloc::Global;
use std::time::Instant;

/// The most bytes that a font may have.
const MAX_BYTES: usize = 67_108_864;

/// A bitmap's pixel, and a script's unit, is a pixel; and the same under a turn.
pub fn matrix(turn: i64) -> Matrix
    ensures matrix { IsMatrix result }
    ensures turn { result.turn ≡ turn }
{
    Matrix {
        ux: 4_194_304,
        uy: 4_194_304,
        italic: false,
        turn,
    }
}

/// A text that repeats a piece behind a head.
fn repeated(alloc: Global, head: &str, piece: &str, count: u32) -> Result<String, Stop> {
    let mut text = String::from_str(alloc, head)?;
    for _ in 0..count {
        text.push_str(piece)?;
    }
    Ok(text)
}

/// The last font of a file's bytes.
pub fn font_of(alloc: Global, bytes: Items<u8>) -> Result<Font, Stop>
    ensures { IfOk result IsFont }
{
    if bytes.len() > MAX_BYTES {
        return Err(Stop::SizeOutOfRange);
    }
    let Ok(fonts) = read_fonts(alloc, bytes) else {
        return Err(Stop::SizeOutOfRange);
    };
    match fonts.into_vec().pop() {
        Some(font) => Ok(font),
        None => Err(Stop::SizeOutOfRange),
    }
}

/// A font of one glyph, whose bitmap has so many rows of 48 pixels, each of them set.
pub fn font(alloc: Global, rows: u8) -> Result<Font, Stop>
    ensures { IfOk result IsFont }
{
    let head = format!(in alloc;
        "STARTFONT 2.1\nFONT solid\nFONTBOUNDINGBOX 48 {rows} 0 0\nSTARTPROPERTIES 1\nFONT_ASCENT {rows}\n\
         ENDPROPERTIES\nSTARTCHAR x\nENCODING 120\nDWIDTH 48 0\nBBX 48 {rows} 0 0\nBITMAP\n"
    )?;
    let mut text = repeated(alloc, head.as_str(), "FFFFFFFFFFFF\n", u32::from(rows))?;
    text.push_str("ENDCHAR\nENDFONT\n")?;
    font_of(alloc, Items::from_vec(text.into_bytes()))
}

/// A path of so many curves.
fn path(alloc: Global, curves: u32) -> Result<Path, Stop>
    ensures { IfOk result (λ path. IsPath path.segs) }
{
    let text = repeated(alloc, "m 0 0", " b 10 0 20 10 20 20", curves)?;
    Ok(read_path(alloc, text.as_str())?)
}

fn measure_runs(rt: &HostRuntime, font: &Font, matrix: &Matrix, turns: u32) -> Result<(), Stop>
    requires font { IsFont font.now }
    requires glyph { 0 < length font.now.glyphs }
    requires matrix { IsMatrix matrix.now }
    requires upright { matrix.now.turn ≡ pos 0 }
{
    let mut laps = Laps::new();
    let mut runs = 0;
    for _ in 0..turns {
        let began = Instant::now(rt)?;
        let outline = runs_of(rt.alloc(), font, 0, matrix, false, false, false)?;
        laps.add(began.elapsed(rt)?);
        runs = outline.rings.len();
    }
    tell(rt, "outline", "upright", runs, "runs", &laps)
}

fn measure_quads(rt: &HostRuntime, font: &Font, matrix: &Matrix, turns: u32) -> Result<(), Stop>
    requires font { IsFont font.now }
    requires glyph { 0 < length font.now.glyphs }
    requires matrix { IsMatrix matrix.now }
{
    let mut laps = Laps::new();
    let mut quads = 0;
    for _ in 0..turns {
        let began = Instant::now(rt)?;
        let outline = quads_of(rt.alloc(), font, 0, matrix, false, false, false)?;
        laps.add(began.elapsed(rt)?);
        quads = outline.rings.len();
    }
    tell(rt, "outline", "turned", quads, "quads", &laps)
}

/// Times the outline of a glyph of so many rows of 48 set pixels, upright and turned by 30.5 degrees.
pub fn measure_glyph(rt: &HostRuntime, rows: u32, turns: u32) -> Result<(), Stop> {
    if rows > 255 {
        return Err(Stop::SizeOutOfRange);
    }
    let font = font(rt.alloc(), rows as u8)?;
    if font.glyph_count() == 0 {
        return Err(Stop::SizeOutOfRange);
    }
    measure_runs(rt, &font, &matrix(0), turns)?;
    measure_quads(rt, &font, &matrix(30_500), turns)
}

fn measure_path(rt: &HostRuntime, path: &Path, matrix: &Matrix, turns: u32) -> Result<(), Stop>
    requires path { IsPath path.now.segs }
    requires matrix { IsMatrix matrix.now }
{
    let mut laps = Laps::new();
    let mut points = 0;
    for _ in 0..turns {
        let began = Instant::now(rt)?;
        let outline = outline_of_path(rt.alloc(), path, matrix, 0)?;
        laps.add(began.elapsed(rt)?);
        points = outline.rings.all_items().len();
    }
    tell(rt, "drawing", "turned", points, "points", &laps)
}

/// Times the outline of a drawing of so many curves.
pub fn measure_drawing(rt: &HostRuntime, curves: u32, turns: u32) -> Result<(), Stop> {
    let path = path(rt.alloc(), curves)?;
    measure_path(rt, &path, &matrix(30_500), turns)
}
