//! The names of a font: its families and its full names.

ghost use Rattle.std.specs.Prelude.{◌≡◌, ◌<◌, ◌≤◌, ◌^◌, length, IfOk};
ghost use Rattle.ass_num.specs.Limits.{max_file_bytes};
ghost use Rattle.sfnt_font.specs.Directory.{IsDirectory, IsTableIn};
ghost use Rattle.sfnt_font.specs.Names.{name_rank, text_place, is_whole_name, is_name, mac_character};
ghost use Rattle.sfnt_font.specs.Names.{narrow_units, wide_units, name_units, spelled, record_name, ranked_names, whole_kind, table_families, table_names, font_names, first_name};

use crate::directory::{Directory, Table, long_table};
use crate::tables::is_post_script;
use ass_num::{FlatLists, Items, Mem};
use font_bytes::{u8_at, u16_at};
use std::alloc::Global;

/// "name"
const NAMES: u32 = 1_851_878_757;

/// The number of a family's name.
const FAMILY: u16 = 1;

/// The number of a full name.
const FULL: u16 = 4;

/// The number of a PostScript name.
const POST_SCRIPT: u16 = 6;

/// The most families of a font, and the most full names.
const MAX_NAMES: usize = 64;

/// The rank of a Windows name.
const WINDOWS: u8 = 0;

/// The rank of a Unicode name and of one in Mac Roman.
const OTHER: u8 = 1;

/// The rank of a name that isn't read.
const UNREAD: u8 = 2;

/// The characters of the bytes from 128 up in Mac Roman.
const MAC_ROMAN: [u16; 128] = [
    196, 197, 199, 201, 209, 214, 220, 225, 224, 226, 228, 227, 229, 231, 233, 232, 234, 235, 237,
    236, 238, 239, 241, 243, 242, 244, 246, 245, 250, 249, 251, 252, 8224, 176, 162, 163, 167,
    8226, 182, 223, 174, 169, 8482, 180, 168, 8800, 198, 216, 8734, 177, 8804, 8805, 165, 181,
    8706, 8721, 8719, 960, 8747, 170, 186, 937, 230, 248, 191, 161, 172, 8730, 402, 8776, 8710,
    171, 187, 8230, 160, 192, 195, 213, 338, 339, 8211, 8212, 8220, 8221, 8216, 8217, 247, 9674,
    255, 376, 8260, 8364, 8249, 8250, 64_257, 64_258, 8225, 183, 8218, 8222, 8240, 194, 202, 193,
    203, 200, 205, 206, 207, 204, 211, 212, 63_743, 210, 218, 219, 217, 305, 710, 732, 175, 728,
    729, 730, 184, 733, 731, 711,
];

/// The names of a font, in UTF-8 and in the order of their records: of its families, and its full names.
#[derive(Debug, Drop)]
pub struct FontNames {
    pub families: FlatLists<u8>,
    pub full_names: FlatLists<u8>,
}

impl FontNames {
    /// The name of the first family; empty where there is none.
    pub fn first(&self) -> &[u8]
        ensures { result.now ≡ first_name self.now.families }
    {
        if self.families.len() > 0 {
            self.families.get(0)
        } else {
            &[]
        }
    }
}

fn name_rank(platform: u16, encoding: u16) -> u8
    ensures { result ≡ name_rank platform encoding }
{
    match platform {
        3 => WINDOWS,
        0 => OTHER,
        1 if encoding == 0 => OTHER,
        _ => UNREAD,
    }
}

/// Where the text of a record begins.
fn text_place(bytes: &[u8], names: Table, at: usize) -> usize
    requires names { IsTableIn bytes.now names }
    requires short { length bytes.now ≤ max_file_bytes }
    requires at { at < 2 ^ 32 }
    ensures value { result ≡ text_place bytes.now names at }
    ensures place { result < 2 ^ 32 }
{
    let texts = usize::from(u16_at(bytes, names.place + 4));
    names.place + texts + usize::from(u16_at(bytes, at + 10))
}

/// Whether a record and its text lie in the table.
fn is_whole_name(bytes: &[u8], names: Table, at: usize) -> bool
    requires names { IsTableIn bytes.now names }
    requires short { length bytes.now ≤ max_file_bytes }
    requires at { at < 2 ^ 32 }
    ensures { result ≡ is_whole_name bytes.now names at }
{
    let size = usize::from(u16_at(bytes, at + 8));
    at + 12 <= names.end() && text_place(bytes, names, at) + size <= names.end()
}

/// Whether a record is a name of this kind and of this rank.
fn is_name(bytes: &[u8], names: Table, kind: u16, rank: u8, at: usize) -> bool
    requires names { IsTableIn bytes.now names }
    requires short { length bytes.now ≤ max_file_bytes }
    requires at { at < 2 ^ 32 }
    ensures { result ≡ is_name bytes.now names kind rank at }
{
    u16_at(bytes, at + 6) == kind
        && name_rank(u16_at(bytes, at), u16_at(bytes, at + 2)) == rank
        && is_whole_name(bytes, names, at)
}

fn mac_character(byte: u8) -> u16
    ensures { result ≡ mac_character byte }
{
    if byte < 128 {
        return u16::from(byte);
    }
    MAC_ROMAN[usize::from(byte - 128)]
}

/// The units of a text of n bytes in Mac Roman.
fn narrow_units(alloc: Global, bytes: &[u8], at: usize, n: u16) -> Mem<Items<u16>>
    requires { at < 2 ^ 32 }
    ensures { IfOk result (λ units. units ≡ narrow_units bytes.now at n) }
{
    let mut units = Items::with_capacity(alloc, usize::from(n))?;
    for k in 0..n {
        units.push(mac_character(u8_at(bytes, at + usize::from(k))))?;
    }
    Ok(units)
}

/// The units of a text of n units in UTF-16.
fn wide_units(alloc: Global, bytes: &[u8], at: usize, n: u16) -> Mem<Items<u16>>
    requires { at < 2 ^ 32 }
    ensures { IfOk result (λ units. units ≡ wide_units bytes.now at n) }
{
    let mut units = Items::with_capacity(alloc, usize::from(n))?;
    for k in 0..n {
        units.push(u16_at(bytes, at + 2 * usize::from(k)))?;
    }
    Ok(units)
}

/// The units of a record's text; an odd last byte isn't one.
fn name_units(alloc: Global, bytes: &[u8], names: Table, at: usize) -> Mem<Items<u16>>
    requires names { IsTableIn bytes.now names }
    requires short { length bytes.now ≤ max_file_bytes }
    requires at { at < 2 ^ 32 }
    ensures { IfOk result (λ units. units ≡ name_units bytes.now names at) }
{
    let size = u16_at(bytes, at + 8);
    let place = text_place(bytes, names, at);
    if u16_at(bytes, at) == 1 {
        return narrow_units(alloc, bytes, place, size);
    }
    wide_units(alloc, bytes, place, size / 2)
}

/// What units spell, in UTF-8; half a pair is U+FFFD.
fn spelled(alloc: Global, units: &[u16]) -> Mem<Items<u8>>
    ensures { IfOk result (λ text. text ≡ spelled units.now) }
{
    let text = String::from_utf16_lossy(alloc, units)?;
    Ok(Items::from_vec(text.into_bytes()))
}

/// What a record spells.
fn record_name(alloc: Global, bytes: &[u8], names: Table, at: usize) -> Mem<Items<u8>>
    requires names { IsTableIn bytes.now names }
    requires short { length bytes.now ≤ max_file_bytes }
    requires at { at < 2 ^ 32 }
    ensures { IfOk result (λ name. name ≡ record_name bytes.now names at) }
{
    let units = name_units(alloc, bytes, names, at)?;
    spelled(alloc, units.as_slice())
}

/// The first names of this kind and rank, at most so many.
fn ranked_names(
    alloc: Global,
    bytes: &[u8],
    names: Table,
    kind: u16,
    rank: u8,
    most: usize,
) -> Mem<FlatLists<u8>>
    requires names { IsTableIn bytes.now names }
    requires short { length bytes.now ≤ max_file_bytes }
    ensures { IfOk result (λ found. found ≡ ranked_names bytes.now names kind rank most) }
{
    let mut found = FlatLists::new(alloc);
    for k in 0..u16_at(bytes, names.place + 2) {
        let at = names.place + 6 + 12 * usize::from(k);
        if found.len() < most && is_name(bytes, names, kind, rank, at) {
            found.push(record_name(alloc, bytes, names, at)?.as_slice())?;
        }
    }
    Ok(found)
}

/// The families that a table gives: those of Windows, or else the first of the others.
fn families_of(alloc: Global, bytes: &[u8], names: Table) -> Mem<FlatLists<u8>>
    requires names { IsTableIn bytes.now names }
    requires short { length bytes.now ≤ max_file_bytes }
    ensures { IfOk result (λ families. families ≡ table_families bytes.now names) }
{
    let families = ranked_names(alloc, bytes, names, FAMILY, WINDOWS, MAX_NAMES)?;
    if families.len() > 0 {
        return Ok(families);
    }
    ranked_names(alloc, bytes, names, FAMILY, OTHER, 1)
}

/// The number of the names that stand for full ones: in a font with PostScript outlines its PostScript names.
fn whole_kind(is_post_script: bool) -> u16
    ensures { result ≡ whole_kind is_post_script }
{
    if is_post_script {
        return POST_SCRIPT;
    }
    FULL
}

/// The names that a table gives.
fn table_names(alloc: Global, bytes: &[u8], is_post_script: bool, names: Table) -> Mem<FontNames>
    requires names { IsTableIn bytes.now names }
    requires short { length bytes.now ≤ max_file_bytes }
    ensures { IfOk result (λ found. found ≡ table_names bytes.now is_post_script names) }
{
    Ok(FontNames {
        families: families_of(alloc, bytes, names)?,
        full_names: ranked_names(
            alloc,
            bytes,
            names,
            whole_kind(is_post_script),
            WINDOWS,
            MAX_NAMES,
        )?,
    })
}

/// The names of the font whose directory this is.
pub fn font_names(alloc: Global, bytes: &[u8], directory: Directory) -> Mem<FontNames>
    requires directory { IsDirectory directory }
    requires short { length bytes.now ≤ max_file_bytes }
    ensures { IfOk result (λ names. names ≡ font_names bytes.now directory) }
{
    match long_table(bytes, directory, NAMES, 6) {
        Some(names) => table_names(alloc, bytes, is_post_script(bytes, directory), names),
        None => Ok(FontNames {
            families: FlatLists::new(alloc),
            full_names: FlatLists::new(alloc),
        }),
    }
}
