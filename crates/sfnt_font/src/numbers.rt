//! The numbers of a font: its units, its heights, its bars.

ghost use Rattle.std.specs.Prelude.{◌≡◌, ◌<◌, ◌≤◌, ◌^◌, length, IfSome, IfOk, pos, neg_ℤ, ◌≤ℤ◌};
ghost use Rattle.ass_num.specs.Limits.{max_file_bytes};
ghost use Rattle.font_bytes.specs.Bytes.{s16_at, IsPlace};
ghost use Rattle.sfnt_font.specs.Directory.{IsTableIn, AreTablesIn, IsDirectory, table_end};
ghost use Rattle.sfnt_font.specs.Numbers.{heights_or, heights_from, window_heights, typographic_heights};
ghost use Rattle.sfnt_font.specs.Numbers.{line_heights, box_heights, font_heights, bar_at, bar_of};
ghost use Rattle.sfnt_font.specs.Numbers.{bar_or, underline_of, strikeout_of, made_numbers, sfnt_numbers, IsHeight, IsFontBar, AreFontNumbers};
ghost use Rattle.sfnt_font.specs.Numbers.{style_weight, weight_or, weight_of, is_slanted, IsWeight};

use crate::cause::{SfntCause, SfntRefusal};
use crate::directory::{Directory, Table, long_table};
use crate::tables::Tables;
use font_bytes::{s16_at, u16_at};

/// "OS/2"
const METRICS: u32 = 1_330_851_634;

/// "post"
const POST: u32 = 1_886_352_244;

/// The heights above and below the baseline.
#[derive(Clone, Copy)]
pub struct Heights {
    pub up: i32,
    pub down: i32,
}

/// A bar over or under a line: how far its top lies below the baseline, and how high it is.
#[derive(Clone, Copy, Debug)]
pub struct Bar {
    pub top: i32,
    pub size: i32,
}

/// The numbers of a font, in its units.
#[derive(Clone, Copy, Debug)]
pub struct Numbers {
    /// How many units the em has.
    pub units: u16,
    pub glyphs: u16,
    /// Whether the places of glyphs have four bytes.
    pub wide_places: bool,
    /// How many glyphs have an advance of their own.
    pub advances: u16,
    pub ascent: i32,
    pub descent: i32,
    pub underline: Option<Bar>,
    pub strikeout: Option<Bar>,
    /// How far the second outline of a bold glyph lies to the right.
    pub bold_step: u16,
    /// How bold the letters are: 400 are regular ones, 700 bold ones.
    pub weight: u16,
    /// Whether the letters slant to the right.
    pub slanted: bool,
}

fn heights_or(first: Heights, second: Heights) -> Heights
    requires up { IsHeight first.up }
    requires down { IsHeight first.down }
    requires other_up { IsHeight second.up }
    requires other_down { IsHeight second.down }
    ensures value { result ≡ heights_or first second }
    ensures up { IsHeight result.up }
    ensures down { IsHeight result.down }
{
    if first.up + first.down == 0 {
        return second;
    }
    first
}

/// The heights of two numbers of a table, of which the second is given upwards.
fn heights_at(bytes: &[u8], up: usize, low: usize) -> Heights
    requires up { IsPlace up }
    requires low { IsPlace low }
    ensures value { result ≡ heights_from (s16_at bytes.now up) (s16_at bytes.now low) }
    ensures up { IsHeight result.up }
    ensures down { IsHeight result.down }
{
    Heights {
        up: s16_at(bytes, up),
        down: -s16_at(bytes, low),
    }
}

/// The heights of the window.
fn window_heights(bytes: &[u8], metrics: Table) -> Heights
    requires { table_end metrics ≤ max_file_bytes }
    ensures value { result ≡ window_heights bytes.now metrics }
    ensures up { IsHeight result.up }
    ensures down { IsHeight result.down }
{
    Heights {
        up: s16_at(bytes, metrics.place + 74),
        down: s16_at(bytes, metrics.place + 76),
    }
}

fn font_heights(bytes: &[u8], tables: &Tables, metrics: Option<Table>) -> Heights
    requires tables { AreTablesIn bytes.now tables.now }
    requires short { length bytes.now ≤ max_file_bytes }
    requires metrics { IfSome metrics (IsTableIn bytes.now) }
    ensures value { result ≡ font_heights bytes.now tables.now metrics }
    ensures up { IsHeight result.up }
    ensures down { IsHeight result.down }
{
    let line = heights_at(bytes, tables.hhea.place + 4, tables.hhea.place + 6);
    let of_box = heights_at(bytes, tables.head.place + 42, tables.head.place + 38);
    let last = heights_or(of_box, Heights { up: 0, down: 0 });
    match metrics {
        None => heights_or(line, last),
        Some(metrics) => {
            let typographic = heights_at(bytes, metrics.place + 68, metrics.place + 70);
            let window = window_heights(bytes, metrics);
            heights_or(window, heights_or(line, heights_or(typographic, last)))
        }
    }
}

/// A bar of this size whose middle lies at this height.
fn bar_at(middle: i32, size: i32) -> Bar
    requires middle { IsHeight middle }
    requires size { IsHeight size }
    ensures { result ≡ bar_at middle size }
{
    Bar {
        top: -(middle + size.div_euclid(2)),
        size,
    }
}

/// The same; a bar of no size is none.
fn bar_of(middle: i32, size: i32) -> Option<Bar>
    requires middle { IsHeight middle }
    requires size { IsHeight size }
    ensures value { result ≡ bar_of middle size }
    ensures bar { IfSome result IsFontBar }
{
    if size > 0 {
        Some(bar_at(middle, size))
    } else {
        None
    }
}

/// The bar whose middle and size stand at these places.
fn bar_in(bytes: &[u8], middle: usize, size: usize) -> Option<Bar>
    requires middle { IsPlace middle }
    requires size { IsPlace size }
    ensures value { result ≡ bar_of (s16_at bytes.now middle) (s16_at bytes.now size) }
    ensures bar { IfSome result IsFontBar }
{
    bar_of(s16_at(bytes, middle), s16_at(bytes, size))
}

/// The bar whose middle and size stand at these places of a table, or else another one.
fn bar_or(
    bytes: &[u8],
    table: Option<Table>,
    middle: usize,
    size: usize,
    other: Option<Bar>,
) -> Option<Bar>
    requires table { IfSome table (IsTableIn bytes.now) }
    requires short { length bytes.now ≤ max_file_bytes }
    requires middle { middle < 100 }
    requires size { size < 100 }
    requires other { IfSome other IsFontBar }
    ensures value { result ≡ bar_or bytes.now table middle size other }
    ensures bar { IfSome result IsFontBar }
{
    match table {
        None => other,
        Some(table) => bar_in(bytes, table.place + middle, table.place + size).or(other),
    }
}

fn underline_of(bytes: &[u8], units: u16, post: Option<Table>) -> Option<Bar>
    requires post { IfSome post (IsTableIn bytes.now) }
    requires short { length bytes.now ≤ max_file_bytes }
    ensures value { result ≡ underline_of bytes.now units post }
    ensures bar { IfSome result IsFontBar }
{
    let middle = (-i32::from(units)).div_euclid(10);
    bar_or(bytes, post, 8, 10, bar_of(middle, i32::from(units / 20)))
}

fn strikeout_of(bytes: &[u8], units: u16, metrics: Option<Table>) -> Option<Bar>
    requires metrics { IfSome metrics (IsTableIn bytes.now) }
    requires short { length bytes.now ≤ max_file_bytes }
    ensures value { result ≡ strikeout_of bytes.now units metrics }
    ensures bar { IfSome result IsFontBar }
{
    bar_or(
        bytes,
        metrics,
        28,
        26,
        bar_of(i32::from(units / 4), i32::from(units / 20)),
    )
}

/// The weight by the style of `head`.
fn style_weight(bytes: &[u8], head: Table) -> u16
    requires { table_end head ≤ max_file_bytes }
    ensures value { result ≡ style_weight bytes.now head }
    ensures weight { IsWeight result }
{
    if u16_at(bytes, head.place + 44) % 2 == 1 {
        700
    } else {
        400
    }
}

/// The weight of a font.
fn weight_of(bytes: &[u8], head: Table, metrics: Option<Table>) -> u16
    requires head { IsTableIn bytes.now head }
    requires metrics { IfSome metrics (IsTableIn bytes.now) }
    requires short { length bytes.now ≤ max_file_bytes }
    ensures value { result ≡ weight_of bytes.now head metrics }
    ensures weight { IsWeight result }
{
    let other = style_weight(bytes, head);
    match metrics {
        None => other,
        Some(metrics) => weight_or(u16_at(bytes, metrics.place + 4), other),
    }
}

/// A weight from 1 to 1,000, or else another one.
fn weight_or(weight: u16, other: u16) -> u16
    requires { IsWeight other }
    ensures value { result ≡ weight_or weight other }
    ensures weight { IsWeight result }
{
    if 1 <= weight && weight <= 1000 {
        weight
    } else {
        other
    }
}

/// Whether the letters of a font slant to the right.
fn is_slanted(bytes: &[u8], head: Table, metrics: Option<Table>) -> bool
    requires head { IsTableIn bytes.now head }
    requires metrics { IfSome metrics (IsTableIn bytes.now) }
    requires short { length bytes.now ≤ max_file_bytes }
    ensures { result ≡ is_slanted bytes.now head metrics }
{
    match metrics {
        None => u16_at(bytes, head.place + 44) / 2 % 2 == 1,
        Some(metrics) => u16_at(bytes, metrics.place + 62) % 2 == 1,
    }
}

fn made_numbers(
    bytes: &[u8],
    tables: &Tables,
    metrics: Option<Table>,
    post: Option<Table>,
) -> Numbers
    requires tables { AreTablesIn bytes.now tables.now }
    requires metrics { IfSome metrics (IsTableIn bytes.now) }
    requires post { IfSome post (IsTableIn bytes.now) }
    requires short { length bytes.now ≤ max_file_bytes }
    ensures value { result ≡ made_numbers bytes.now tables.now metrics post }
    ensures numbers { AreFontNumbers result }
{
    let units = u16_at(bytes, tables.head.place + 18);
    let heights = font_heights(bytes, tables, metrics);
    Numbers {
        units,
        glyphs: u16_at(bytes, tables.maxp.place + 4),
        wide_places: u16_at(bytes, tables.head.place + 50) != 0,
        advances: u16_at(bytes, tables.hhea.place + 34),
        ascent: heights.up.max(0),
        descent: heights.down.max(0),
        underline: underline_of(bytes, units, post),
        strikeout: strikeout_of(bytes, units, metrics),
        bold_step: (units / 40).max(1),
        weight: weight_of(bytes, tables.head, metrics),
        slanted: is_slanted(bytes, tables.head, metrics),
    }
}

/// The numbers of a font, or the first that is 0 and may not be.
pub fn sfnt_numbers(
    bytes: &[u8],
    directory: Directory,
    tables: &Tables,
) -> Result<Numbers, SfntRefusal>
    requires directory { IsDirectory directory }
    requires tables { AreTablesIn bytes.now tables.now }
    requires short { length bytes.now ≤ max_file_bytes }
    ensures value { result ≡ sfnt_numbers bytes.now directory tables.now }
    ensures numbers { IfOk result AreFontNumbers }
{
    if u16_at(bytes, tables.head.place + 18) == 0 {
        return Err(SfntRefusal::BadFont(tables.head.place + 18, SfntCause::BadNumber));
    }
    if u16_at(bytes, tables.maxp.place + 4) == 0 {
        return Err(SfntRefusal::BadFont(tables.maxp.place + 4, SfntCause::BadNumber));
    }
    let metrics = long_table(bytes, directory, METRICS, 78);
    let post = long_table(bytes, directory, POST, 12);
    Ok(made_numbers(bytes, tables, metrics, post))
}
