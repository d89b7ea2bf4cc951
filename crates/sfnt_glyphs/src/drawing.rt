//! The contours of glyphs.

ghost use Rattle.std.specs.Prelude.{◌≡◌, ◌≤◌, ◌+◌, IfOk};
ghost use Rattle.ass_num.specs.Limits.{max_file_bytes};
ghost use Rattle.sfnt_glyphs.specs.Glyphs.{IsStretch, no_points, simple_glyph, simple_points, joined_part, room_for_part, glyph_drawn, stretch_drawn};
ghost use Rattle.sfnt_glyphs.specs.Glyphs.{parts_from, drawn_part, cut_contours, shifted_contours, contours_of, max_parts, last_place};
ghost use Rattle.sfnt_font.specs.Numbers.{IsHeight};
ghost use Rattle.sfnt_font.specs.Ranges.{IsSfntFont};

use crate::drawn::{Drawn, Room};
use crate::metrics::bearing_of;
use crate::parts::{Part, part_at};
use crate::points::{Placing, placed_points};
use crate::simple::{points_behind, sizes_at};
use crate::stretch::{Stretch, glyph_stretch};
use ass_num::{FlatLists, Items, Mem};
use font_bytes::{s16_at, u16_at};
use outline_points::GlyphPoint;
use sfnt_font::SfntFont;
use std::alloc::Global;

/// The most points of a glyph.
const MAX_POINTS: u32 = 16_384;

/// The most parts of a glyph, parts of parts counted each time.
const MAX_PARTS: u32 = 256;

/// How deep parts may go, and one more.
const MAX_DEPTH: u32 = 9;

fn no_points(alloc: Global, shift: i32, room: Room) -> Drawn
    ensures { result ≡ no_points shift room }
{
    Drawn {
        sizes: Items::new(alloc),
        points: Items::new(alloc),
        shift,
        room,
    }
}

/// The contours of a simple glyph that have these sizes, n points in all, whose flags begin behind a list of bytes.
fn simple_points(
    alloc: Global,
    bytes: &[u8],
    stop: usize,
    sizes: Items<u32>,
    n: u32,
    at: usize,
    shift: i32,
    room: Room,
) -> Mem<Option<Drawn>>
    requires stop { stop ≤ max_file_bytes }
    requires at { at ≤ max_file_bytes }
    ensures { IfOk result (λ whole. whole ≡ simple_points bytes.now stop n sizes at shift room) }
{
    if u64::from(room.points) + u64::from(n) > u64::from(MAX_POINTS) {
        return Ok(None);
    }
    let flags = at + 2 + usize::from(u16_at(bytes, at));
    match points_behind(alloc, bytes, stop, n as usize, flags)? {
        Some(points) => Ok(Some(Drawn {
            sizes,
            points,
            shift,
            room: Room {
                points: room.points + n,
                parts: room.parts,
            },
        })),
        None => Ok(None),
    }
}

/// A simple glyph of n contours, whose last points stand from `at` on.
fn simple_glyph(
    alloc: Global,
    bytes: &[u8],
    stop: usize,
    at: usize,
    n: usize,
    shift: i32,
    room: Room,
) -> Mem<Option<Drawn>>
    requires stop { stop ≤ max_file_bytes }
    requires at { at ≤ last_place }
    requires n { n ≤ 65535 }
    ensures { IfOk result (λ whole. whole ≡ simple_glyph bytes.now stop at n shift room) }
{
    if n == 0 {
        return Ok(Some(no_points(alloc, shift, room)));
    }
    if stop < at + 2 * n + 2 {
        return Ok(None);
    }
    match sizes_at(alloc, bytes, at, n)? {
        Some((run, sizes)) => simple_points(
            alloc,
            bytes,
            stop,
            sizes,
            run.behind,
            at + 2 * n,
            shift,
            room,
        ),
        None => Ok(None),
    }
}

/// A glyph with a part more, which was drawn.
fn joined_part(part: &Part, front: Drawn, drawn: Drawn) -> Mem<Option<Drawn>>
    ensures { IfOk result (λ whole. whole ≡ joined_part part.now front drawn) }
{
    let mut sizes = front.sizes.into_vec();
    sizes.extend_from_slice(drawn.sizes.as_slice())?;
    match placed_points(&part.placing, drawn.points.as_slice(), front.points)? {
        Some(points) => Ok(Some(Drawn {
            sizes: Items::from_vec(sizes),
            points,
            shift: if part.is_own_shift {
                drawn.shift
            } else {
                front.shift
            },
            room: drawn.room,
        })),
        None => Ok(None),
    }
}

/// The room with one part more.
fn room_for_part(room: Room) -> Option<Room>
    ensures { result ≡ room_for_part room }
{
    if room.parts < MAX_PARTS {
        return Some(Room {
            points: room.points,
            parts: room.parts + 1,
        });
    }
    None
}

/// A glyph whose parts may go `depth` deep, less one.
#[cycle(drawing)]
fn glyph_drawn(alloc: Global, font: &SfntFont, depth: u32, g: u16, room: Room) -> Mem<Option<Drawn>>
    requires { IsSfntFont font.now }
    ensures { IfOk result (λ whole. whole ≡ glyph_drawn font.now depth g room) }
{
    if depth == 0 {
        return Ok(None);
    }
    if g >= font.numbers().glyphs {
        return Ok(None);
    }
    match glyph_stretch(font, g) {
        Some(stretch) => stretch_drawn(alloc, font, depth - 1, bearing_of(font, g), stretch, room),
        None => Ok(Some(no_points(alloc, bearing_of(font, g), room))),
    }
}

/// A glyph that has this bearing and these bytes.
#[cycle(drawing)]
fn stretch_drawn(
    alloc: Global,
    font: &SfntFont,
    depth: u32,
    bearing: i32,
    stretch: Stretch,
    room: Room,
) -> Mem<Option<Drawn>>
    requires font { IsSfntFont font.now }
    requires bearing { IsHeight bearing }
    requires stretch { IsStretch stretch }
    ensures { IfOk result (λ whole. whole ≡ stretch_drawn (glyph_drawn font.now depth) font.now.bytes bearing stretch room) }
{
    if stretch.to < stretch.from + 10 {
        return Ok(None);
    }
    let bytes = font.bytes();
    let shift = bearing - s16_at(bytes, stretch.from + 2);
    let count = u16_at(bytes, stretch.from);
    if count < 32_768 {
        return simple_glyph(
            alloc,
            bytes,
            stretch.to,
            stretch.from + 10,
            usize::from(count),
            shift,
            room,
        );
    }
    parts_from(alloc, font, depth, stretch, no_points(alloc, shift, room))
}

/// A glyph of parts.
#[cycle(drawing)]
fn parts_from(
    alloc: Global,
    font: &SfntFont,
    depth: u32,
    stretch: Stretch,
    front: Drawn,
) -> Mem<Option<Drawn>>
    requires font { IsSfntFont font.now }
    requires stretch { IsStretch stretch }
    ensures { IfOk result (λ whole. whole ≡ parts_from (glyph_drawn font.now depth) font.now.bytes stretch.to max_parts (stretch.from + 10) front) }
{
    let mut at = stretch.from + 10;
    let mut front = front;
    for _k in 0..MAX_PARTS {
        let part = match part_at(font.bytes(), stretch.to, at) {
            Some(part) => part,
            None => return Ok(None),
        };
        match drawn_part(alloc, font, depth, &part, front)? {
            Some(whole) => front = whole,
            None => return Ok(None),
        }
        if !part.is_followed {
            return Ok(Some(front));
        }
        at = part.behind;
    }
    Ok(None)
}

/// A glyph with a part more.
#[cycle(drawing)]
fn drawn_part(
    alloc: Global,
    font: &SfntFont,
    depth: u32,
    part: &Part,
    front: Drawn,
) -> Mem<Option<Drawn>>
    requires { IsSfntFont font.now }
    ensures { IfOk result (λ whole. whole ≡ drawn_part (glyph_drawn font.now depth) part.now front) }
{
    let room = match room_for_part(front.room) {
        Some(room) => room,
        None => return Ok(None),
    };
    match glyph_drawn(alloc, font, depth, part.glyph, room)? {
        Some(whole) => joined_part(part, front, whole),
        None => Ok(None),
    }
}

/// Points in turn, as contours of these sizes.
fn cut_contours(alloc: Global, sizes: &[u32], points: &[GlyphPoint]) -> Mem<FlatLists<GlyphPoint>>
    ensures { IfOk result (λ contours. contours ≡ cut_contours sizes.now points.now) }
{
    let mut contours = FlatLists::with_capacity(alloc, sizes.len(), points.len())?;
    let mut rest = points;
    for size in sizes {
        let (contour, behind) = rest.split_at((*size as usize).min(rest.len()));
        contours.push(contour)?;
        rest = behind;
    }
    Ok(contours)
}

/// The contours of a glyph, moved right by its shift; `None` where a point is too far from 0.
fn shifted_contours(alloc: Global, whole: Drawn) -> Mem<Option<FlatLists<GlyphPoint>>>
    ensures { IfOk result (λ contours. contours ≡ shifted_contours whole) }
{
    let placing = Placing {
        a: 16_384,
        b: 0,
        c: 0,
        d: 16_384,
        dx: whole.shift,
        dy: 0,
    };
    let front = Items::with_capacity(alloc, whole.points.len())?;
    match placed_points(&placing, whole.points.as_slice(), front)? {
        Some(points) => {
            let contours = cut_contours(alloc, whole.sizes.as_slice(), points.as_slice())?;
            Ok(Some(contours))
        }
        None => Ok(None),
    }
}

/// The contours of a glyph; a broken one has none.
pub fn contours_of(alloc: Global, font: &SfntFont, g: u16) -> Mem<FlatLists<GlyphPoint>>
    requires { IsSfntFont font.now }
    ensures { IfOk result (λ contours. contours ≡ contours_of font.now g) }
{
    let room = Room {
        points: 0,
        parts: 0,
    };
    let whole = match glyph_drawn(alloc, font, MAX_DEPTH, g, room)? {
        Some(whole) => whole,
        None => return Ok(FlatLists::new(alloc)),
    };
    match shifted_contours(alloc, whole)? {
        Some(contours) => Ok(contours),
        None => Ok(FlatLists::new(alloc)),
    }
}
