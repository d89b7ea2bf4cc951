//! Simple glyphs: the sizes of their contours, the flags of their points, and the points.

ghost use Rattle.std.specs.Prelude.{◌≡◌, ◌<◌, ◌≤◌, ◌^◌, length, pos, IfOk, IfSome, slice_index_or};
ghost use Rattle.ass_num.specs.Limits.{max_file_bytes};
ghost use Rattle.sfnt_glyphs.specs.Glyphs.{has_flag, next_size, sizes_at, read_flag, next_flag, flags_at, coordinate_at, short_step};
ghost use Rattle.sfnt_glyphs.specs.Glyphs.{long_step, next_coordinate, written_xs, point_in, written_points, points_behind, last_place};

use crate::points::held_unit;
use ass_num::{Items, Mem};
use font_bytes::{s16_at, u8_at, u16_at};
use outline_points::GlyphPoint;
use std::alloc::Global;

/// How many points a contour has, and how many it and those before it have.
#[derive(Clone, Copy)]
pub struct SizeRun {
    pub size: u32,
    pub behind: u32,
}

/// The flag of a point, how many points more it is that of, and where the next one stands.
#[derive(Clone, Copy)]
pub struct FlagRun {
    pub at: usize,
    pub flag: u8,
    pub again: u8,
}

/// A coordinate of a point, and where that of the next one stands.
#[derive(Clone, Copy)]
pub struct Coordinate {
    pub at: usize,
    pub value: i32,
}

/// Whether a flag is set.
pub fn has_flag(flags: u16, flag: u16) -> bool
    ensures { result ≡ has_flag flags flag }
{
    flags & flag != 0
}

/// The size of contour k, where the contours before it have `behind` points.
fn next_size(bytes: &[u8], at: usize, k: usize, run: SizeRun) -> Option<SizeRun>
    requires at { at ≤ last_place }
    requires k { k ≤ 65536 }
    ensures { result ≡ next_size bytes.now at k run }
{
    let last = u32::from(u16_at(bytes, at + 2 * k));
    if last < run.behind {
        return None;
    }
    Some(SizeRun {
        size: last + 1 - run.behind,
        behind: last + 1,
    })
}

/// The sizes of n contours, whose last points stand from `at` on.
pub fn sizes_at(
    alloc: Global,
    bytes: &[u8],
    at: usize,
    n: usize,
) -> Mem<Option<(SizeRun, Items<u32>)>>
    requires at { at ≤ last_place }
    requires n { n ≤ 65536 }
    ensures { IfOk result (λ sizes. sizes ≡ sizes_at bytes.now at n) }
{
    let mut sizes = Items::new(alloc);
    let mut run = SizeRun { size: 0, behind: 0 };
    for k in 0..n {
        match next_size(bytes, at, k, run) {
            Some(next) => {
                sizes.push(next.size)?;
                run = next;
            }
            None => return Ok(None),
        }
    }
    Ok(Some((run, sizes)))
}

/// A flag that stands at a place, and how often it is repeated.
fn read_flag(bytes: &[u8], stop: usize, at: usize, flag: u8) -> Option<FlagRun>
    requires stop { stop ≤ max_file_bytes }
    requires at { at ≤ last_place }
    ensures value { result ≡ read_flag bytes.now stop at flag }
    ensures at { at < stop → IfSome result (λ run. run.at ≤ last_place) }
{
    if !has_flag(u16::from(flag), 8) {
        return Some(FlagRun {
            at: at + 1,
            flag,
            again: 0,
        });
    }
    if stop < at + 2 {
        return None;
    }
    Some(FlagRun {
        at: at + 2,
        flag,
        again: u8_at(bytes, at + 1),
    })
}

/// The flag of the next point.
fn next_flag(bytes: &[u8], stop: usize, run: FlagRun) -> Option<FlagRun>
    requires stop { stop ≤ max_file_bytes }
    requires at { run.at ≤ last_place }
    ensures value { result ≡ next_flag bytes.now stop run }
    ensures at { IfSome result (λ next. next.at ≤ last_place) }
{
    if run.again != 0 {
        return Some(FlagRun {
            at: run.at,
            flag: run.flag,
            again: run.again - 1,
        });
    }
    if stop < run.at + 1 {
        return None;
    }
    read_flag(bytes, stop, run.at, u8_at(bytes, run.at))
}

/// The flags of n points, which stand from `at` on, and the place behind them.
fn flags_at(
    alloc: Global,
    bytes: &[u8],
    stop: usize,
    at: usize,
    n: usize,
) -> Mem<Option<(usize, Items<u8>)>>
    requires stop { stop ≤ max_file_bytes }
    requires at { at ≤ last_place }
    ensures value { IfOk result (λ flags. flags ≡ flags_at bytes.now stop at n) }
    ensures at { IfOk result (λ flags. IfSome flags (λ read. read.0 ≤ last_place)) }
{
    let mut flags = Items::new(alloc);
    let mut run = FlagRun {
        at,
        flag: 0,
        again: 0,
    };
    for _k in 0..n {
        match next_flag(bytes, stop, run) {
            Some(next) => {
                flags.push(next.flag)?;
                run = next;
            }
            None => return Ok(None),
        }
    }
    if run.again == 0 {
        return Ok(Some((run.at, flags)));
    }
    Ok(None)
}

fn coordinate_at(at: usize, value: i64) -> Option<Coordinate>
    ensures value { result ≡ coordinate_at at value }
    ensures at { IfSome result (λ next. next.at ≡ at) }
{
    let value = held_unit(i128::from(value))?;
    Some(Coordinate { at, value })
}

/// The next coordinate, whose step is a byte, up or down.
fn short_step(bytes: &[u8], stop: usize, is_up: bool, before: Coordinate) -> Option<Coordinate>
    requires stop { stop ≤ max_file_bytes }
    requires at { before.at ≤ last_place }
    ensures value { result ≡ short_step bytes.now stop is_up before }
    ensures at { IfSome result (λ next. next.at ≤ last_place) }
{
    if stop < before.at + 1 {
        return None;
    }
    let step = i64::from(u8_at(bytes, before.at));
    let value = i64::from(before.value);
    if is_up {
        return coordinate_at(before.at + 1, value + step);
    }
    coordinate_at(before.at + 1, value - step)
}

/// The next coordinate, whose step is a number of two bytes.
fn long_step(bytes: &[u8], stop: usize, before: Coordinate) -> Option<Coordinate>
    requires stop { stop ≤ max_file_bytes }
    requires at { before.at ≤ last_place }
    ensures value { result ≡ long_step bytes.now stop before }
    ensures at { IfSome result (λ next. next.at ≤ last_place) }
{
    if stop < before.at + 2 {
        return None;
    }
    let step = i64::from(s16_at(bytes, before.at));
    coordinate_at(before.at + 2, i64::from(before.value) + step)
}

/// The coordinate of the next point, whose flag says by `short` and `same` how it is written.
fn next_coordinate(
    bytes: &[u8],
    stop: usize,
    short: u16,
    same: u16,
    flag: u8,
    before: Coordinate,
) -> Option<Coordinate>
    requires stop { stop ≤ max_file_bytes }
    requires at { before.at ≤ last_place }
    ensures value { result ≡ next_coordinate bytes.now stop short same flag before }
    ensures at { IfSome result (λ next. next.at ≤ last_place) }
{
    let flag = u16::from(flag);
    if has_flag(flag, short) {
        return short_step(bytes, stop, has_flag(flag, same), before);
    }
    if has_flag(flag, same) {
        return Some(before);
    }
    long_step(bytes, stop, before)
}

/// The first coordinates of the points that have these flags.
fn written_xs(
    alloc: Global,
    bytes: &[u8],
    stop: usize,
    flags: &[u8],
    at: usize,
) -> Mem<Option<(Coordinate, Items<i32>)>>
    requires stop { stop ≤ max_file_bytes }
    requires at { at ≤ last_place }
    ensures value { IfOk result (λ xs. xs ≡ written_xs bytes.now stop flags.now at) }
    ensures at { IfOk result (λ xs. IfSome xs (λ read. read.0.at ≤ last_place)) }
{
    let mut values = Items::with_capacity(alloc, flags.len())?;
    let mut last = Coordinate { at, value: 0 };
    for k in 0..flags.len() {
        match next_coordinate(bytes, stop, 2, 16, flags[k], last) {
            Some(next) => {
                values.push(next.value)?;
                last = next;
            }
            None => return Ok(None),
        }
    }
    Ok(Some((last, values)))
}

/// The number at a place, or 0.
fn number_at(numbers: &[i32], k: usize) -> i32
    ensures { result ≡ slice_index_or numbers.now k (pos 0) }
{
    if k < numbers.len() {
        return numbers[k];
    }
    0
}

/// Point k, whose second coordinate is read.
fn point_in(flags: &[u8], xs: &[i32], k: usize, read: Coordinate) -> GlyphPoint
    requires { k < length flags.now }
    ensures { result ≡ point_in flags.now xs.now k read }
{
    GlyphPoint {
        x: number_at(xs, k),
        y: read.value,
        is_on: has_flag(u16::from(flags[k]), 1),
    }
}

/// The points that have these flags and first coordinates.
fn written_points(
    alloc: Global,
    bytes: &[u8],
    stop: usize,
    flags: &[u8],
    xs: &[i32],
    at: usize,
) -> Mem<Option<(Coordinate, Items<GlyphPoint>)>>
    requires stop { stop ≤ max_file_bytes }
    requires at { at ≤ last_place }
    ensures { IfOk result (λ points. points ≡ written_points bytes.now stop flags.now xs.now at) }
{
    let mut points = Items::with_capacity(alloc, flags.len())?;
    let mut last = Coordinate { at, value: 0 };
    for k in 0..flags.len() {
        match next_coordinate(bytes, stop, 4, 32, flags[k], last) {
            Some(next) => {
                points.push(point_in(flags, xs, k, next))?;
                last = next;
            }
            None => return Ok(None),
        }
    }
    Ok(Some((last, points)))
}

/// The n points whose flags stand from `at` on.
pub fn points_behind(
    alloc: Global,
    bytes: &[u8],
    stop: usize,
    n: usize,
    at: usize,
) -> Mem<Option<Items<GlyphPoint>>>
    requires stop { stop ≤ max_file_bytes }
    requires at { at ≤ last_place }
    ensures { IfOk result (λ points. points ≡ points_behind bytes.now stop n at) }
{
    let (behind, flags) = match flags_at(alloc, bytes, stop, at, n)? {
        Some(read) => read,
        None => return Ok(None),
    };
    let flags = flags.as_slice();
    let (last, xs) = match written_xs(alloc, bytes, stop, flags, behind)? {
        Some(read) => read,
        None => return Ok(None),
    };
    match written_points(alloc, bytes, stop, flags, xs.as_slice(), last.at)? {
        Some((_last, points)) => Ok(Some(points)),
        None => Ok(None),
    }
}
