//! Draws, as they are printed: where a mask stands, its colours and its edge; its clip; and its parts.

use crate::telling::{numbers_text, show_numbers};
use ass_num::{Matrix, Rgba};
use mask_keys::{Clip, Draw, OutlineKey, Part};
use std::alloc::Global;
use std::io;

fn glyph_text(alloc: Global, place: [u32; 2], m: &Matrix, bars: [bool; 3]) -> io::Result<String> {
    let [font, glyph] = place;
    let [bold, underline, strikeout] = bars;
    let numbers = [
        i64::from(font),
        i64::from(glyph),
        m.ux,
        m.uy,
        i64::from(m.italic),
        m.turn,
        i64::from(bold),
        i64::from(underline),
        i64::from(strikeout),
    ];
    numbers_text(alloc, "glyph", &numbers)
}

/// An outline: of a drawing the number of its segments is said.
fn outline_text(alloc: Global, outline: &OutlineKey) -> io::Result<String> {
    match outline {
        OutlineKey::Glyph {
            font,
            glyph,
            m,
            bold,
            underline,
            strikeout,
        } => glyph_text(alloc, [*font, *glyph], m, [*bold, *underline, *strikeout]),
        OutlineKey::Drawing { path, m, shift } => {
            let segments = path.segs.as_slice().len() as i64;
            let numbers = [m.ux, m.uy, i64::from(m.italic), m.turn, *shift, segments];
            numbers_text(alloc, "drawing", &numbers)
        }
        OutlineKey::Box { w, h, turn } => numbers_text(alloc, "box", &[*w, *h, *turn]),
    }
}

fn show_part(rt: &HostRuntime, part: &Part) -> io::Result<()> {
    let mask = &part.mask;
    let numbers = [
        i64::from(part.dx),
        i64::from(part.dy),
        i64::from(mask.rx),
        i64::from(mask.ry),
        i64::from(mask.px),
        i64::from(mask.py),
        i64::from(mask.edges),
        i64::from(mask.blur),
    ];
    let head = numbers_text(rt.alloc(), "  part", &numbers)?;
    let outline = outline_text(rt.alloc(), &mask.outline)?;
    println!(rt; "{head} {outline}")
}

fn show_parts(rt: &HostRuntime, parts: &[Part]) -> io::Result<()> {
    for part in parts {
        show_part(rt, part)?;
    }
    Ok(())
}

fn show_clip(rt: &HostRuntime, clip: &Clip) -> io::Result<()> {
    match clip {
        Clip::Free => Ok(()),
        Clip::Rect {
            x1,
            y1,
            x2,
            y2,
            inverse,
        } => {
            let numbers = [
                i64::from(*x1),
                i64::from(*y1),
                i64::from(*x2),
                i64::from(*y2),
                i64::from(*inverse),
            ];
            show_numbers(rt, "  clip", &numbers)
        }
        Clip::Drawn { key, x, y, inverse } => {
            let numbers = [i64::from(*x), i64::from(*y), i64::from(*inverse)];
            show_numbers(rt, "  drawn clip", &numbers)?;
            show_parts(rt, key.parts.as_slice())
        }
    }
}

fn numbers_of(draw: &Draw) -> [i64; 11] {
    let Rgba { r, g, b, a } = draw.left;
    let right = draw.right;
    [
        i64::from(draw.x),
        i64::from(draw.y),
        i64::from(r),
        i64::from(g),
        i64::from(b),
        i64::from(a),
        i64::from(right.r),
        i64::from(right.g),
        i64::from(right.b),
        i64::from(right.a),
        i64::from(draw.edge),
    ]
}

/// Prints a draw.
pub fn show_draw(rt: &HostRuntime, draw: &Draw) -> io::Result<()> {
    show_numbers(rt, " draw", &numbers_of(draw))?;
    show_clip(rt, &draw.clip)?;
    show_parts(rt, draw.key.parts.as_slice())
}
