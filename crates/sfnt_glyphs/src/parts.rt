//! The parts of glyphs that are made of others.

ghost use Rattle.std.specs.Prelude.{◌≡◌, ◌≤◌, ◌+◌, ◌*◌, IfSome};
ghost use Rattle.ass_num.specs.Limits.{max_file_bytes};
ghost use Rattle.sfnt_glyphs.specs.Glyphs.{shift_size, scale_size, placing_by, placing_at, part_at, last_place};

use crate::points::Placing;
use crate::simple::has_flag;
use font_bytes::{s8_at, s16_at, u16_at};

/// A part: its glyph, where its points are placed, whether the whole takes its shift, whether another part follows,
/// and the place behind it.
#[derive(Clone, Copy)]
pub struct Part {
    pub glyph: u16,
    pub placing: Placing,
    pub is_own_shift: bool,
    pub is_followed: bool,
    pub behind: usize,
}

/// How many bytes the shift of a part has.
fn shift_size(flags: u16) -> usize
    ensures value { result ≡ shift_size flags }
    ensures most { result ≤ 4 }
{
    if has_flag(flags, 1) { 4 } else { 2 }
}

/// How many bytes its scale has.
fn scale_size(flags: u16) -> usize
    ensures value { result ≡ scale_size flags }
    ensures most { result ≤ 8 }
{
    if has_flag(flags, 8) {
        return 2;
    }
    if has_flag(flags, 64) {
        return 4;
    }
    if has_flag(flags, 128) { 8 } else { 0 }
}

/// Where the points of a part are placed, whose scale stands at `scale`.
fn placing_by(bytes: &[u8], flags: u16, scale: usize, dx: i32, dy: i32) -> Placing
    requires { scale ≤ 2 * last_place }
    ensures { result ≡ placing_by bytes.now flags scale dx dy }
{
    let a = s16_at(bytes, scale);
    if has_flag(flags, 8) {
        return Placing {
            a,
            b: 0,
            c: 0,
            d: a,
            dx,
            dy,
        };
    }
    if has_flag(flags, 64) {
        let d = s16_at(bytes, scale + 2);
        return Placing {
            a,
            b: 0,
            c: 0,
            d,
            dx,
            dy,
        };
    }
    if has_flag(flags, 128) {
        let b = s16_at(bytes, scale + 2);
        let c = s16_at(bytes, scale + 4);
        let d = s16_at(bytes, scale + 6);
        return Placing { a, b, c, d, dx, dy };
    }
    Placing {
        a: 16_384,
        b: 0,
        c: 0,
        d: 16_384,
        dx,
        dy,
    }
}

/// The same of a part whose shift stands at `at`, and its scale behind it.
fn placing_at(bytes: &[u8], flags: u16, at: usize) -> Placing
    requires { at ≤ last_place + 4 }
    ensures { result ≡ placing_at bytes.now flags at }
{
    if has_flag(flags, 1) {
        return placing_by(
            bytes,
            flags,
            at + 4,
            s16_at(bytes, at),
            s16_at(bytes, at + 2),
        );
    }
    placing_by(bytes, flags, at + 2, s8_at(bytes, at), s8_at(bytes, at + 1))
}

/// The part at a place. One that is laid by numbers of points isn't read.
pub fn part_at(bytes: &[u8], stop: usize, at: usize) -> Option<Part>
    requires stop { stop ≤ max_file_bytes }
    requires at { at ≤ last_place }
    ensures value { result ≡ part_at bytes.now stop at }
    ensures behind { IfSome result (λ part. part.behind ≤ last_place) }
{
    let flags = u16_at(bytes, at);
    let behind = at + 4 + shift_size(flags) + scale_size(flags);
    if stop < behind {
        return None;
    }
    if !has_flag(flags, 2) {
        return None;
    }
    Some(Part {
        glyph: u16_at(bytes, at + 2),
        placing: placing_at(bytes, flags, at + 4),
        is_own_shift: has_flag(flags, 512),
        is_followed: has_flag(flags, 32),
        behind,
    })
}
