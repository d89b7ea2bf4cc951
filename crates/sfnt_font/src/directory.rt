//! The directory of a face, and the tables that it names.

ghost use Rattle.std.specs.Prelude.{◌≡◌, ◌<◌, ◌^◌, length, IfOk, IfSome};
ghost use Rattle.font_bytes.specs.Bytes.{u16_at, u32_at};
ghost use Rattle.sfnt_font.specs.Directory.{whole_directory, directory_at, directory_end, table_end, table_span, table_at};
ghost use Rattle.sfnt_font.specs.Directory.{is_table, table_named, unless_short, IsDirectory, IsTableIn};

use crate::cause::{SfntCause, SfntRefusal};
use crate::faces::is_face_kind;
use cff_font::Span;
use font_bytes::{u16_at, u32_at};

/// Where the entries of a directory begin, and how many there are.
#[derive(Clone, Copy)]
pub struct Directory {
    pub first: usize,
    pub count: usize,
}

/// Where the bytes of a table are.
#[derive(Clone, Copy, Debug)]
pub struct Table {
    pub place: usize,
    pub size: usize,
}

impl Directory {
    /// The byte behind the entries.
    pub fn end(&self) -> usize
        requires { IsDirectory self.now }
        ensures { result ≡ directory_end self.now }
    {
        self.first + 16 * self.count
    }
}

impl Table {
    /// The bytes of the table.
    pub fn span(&self) -> Span
        requires { table_end self.now < 2 ^ 40 }
        ensures { result ≡ table_span self.now }
    {
        Span {
            from: self.place,
            to: self.end(),
        }
    }

    /// The byte behind the table.
    pub fn end(&self) -> usize
        requires { table_end self.now < 2 ^ 40 }
        ensures { result ≡ table_end self.now }
    {
        self.place + self.size
    }
}

fn whole_directory(bytes: &[u8], first: usize, count: usize) -> Result<Directory, SfntRefusal>
    requires first { first < 2 ^ 33 }
    requires count { count < 2 ^ 16 }
    ensures value { result ≡ whole_directory bytes.now first count }
    ensures places { IfOk result IsDirectory }
{
    if bytes.len() < first + 16 * count {
        return Err(SfntRefusal::BadFont(bytes.len(), SfntCause::Ends));
    }
    Ok(Directory { first, count })
}

/// The directory of the face at a place.
pub fn directory_at(bytes: &[u8], at: usize) -> Result<Directory, SfntRefusal>
    requires { at < 2 ^ 32 }
    ensures value { result ≡ directory_at bytes.now at }
    ensures places { IfOk result IsDirectory }
{
    let kind = u32_at(bytes, at);
    if !is_face_kind(kind) {
        return Err(SfntRefusal::BadFont(at, SfntCause::NotSfnt));
    }
    whole_directory(bytes, at + 12, usize::from(u16_at(bytes, at + 4)))
}

/// The table that an entry names.
fn table_at(bytes: &[u8], entry: usize) -> Table
    requires { entry < 2 ^ 34 }
    ensures value { result ≡ table_at bytes.now entry }
    ensures place { table_end result < 2 ^ 40 }
{
    Table {
        place: u32_at(bytes, entry + 8) as usize,
        size: u32_at(bytes, entry + 12) as usize,
    }
}

/// Whether an entry has this name, and all bytes of its table lie in the file.
fn is_table(bytes: &[u8], name: u32, entry: usize) -> bool
    requires { entry < 2 ^ 34 }
    ensures { result ≡ is_table bytes.now name entry }
{
    let table = table_at(bytes, entry);
    u32_at(bytes, entry) == name && table.end() <= bytes.len()
}

/// The first table of this name that lies in the file.
pub fn table_named(bytes: &[u8], directory: Directory, name: u32) -> Option<Table>
    requires { IsDirectory directory }
    ensures value { result ≡ table_named bytes.now directory name }
    ensures within { IfSome result (IsTableIn bytes.now) }
{
    for k in 0..directory.count {
        let entry = directory.first + 16 * k;
        if is_table(bytes, name, entry) {
            return Some(table_at(bytes, entry));
        }
    }
    None
}

/// The table of this name, if it has at least so many bytes.
pub fn long_table(bytes: &[u8], directory: Directory, name: u32, least: usize) -> Option<Table>
    requires { IsDirectory directory }
    ensures value { result ≡ unless_short least (table_named bytes.now directory name) }
    ensures within { IfSome result (IsTableIn bytes.now) }
{
    match table_named(bytes, directory, name) {
        Some(table) if table.size >= least => Some(table),
        _ => None,
    }
}
