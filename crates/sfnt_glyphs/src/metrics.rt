//! How wide glyphs are, and how far their least x lies from 0.

ghost use Rattle.std.specs.Prelude.{◌≡◌, ◌≤◌, length, neg_ℤ, pos, ◌≤ℤ◌};
ghost use Rattle.ass_num.specs.Limits.{max_file_bytes};
ghost use Rattle.sfnt_font.specs.Directory.{IsTableIn};
ghost use Rattle.sfnt_glyphs.specs.Metrics.{advance_at, entry_advance, advance_of, bearing_at, bearing_in, bearing_of};
ghost use Rattle.sfnt_font.specs.Ranges.{IsSfntFont};

use font_bytes::{s16_at, u16_at};
use sfnt_font::{SfntFont, Table};

/// The advance of an entry that has at least so many bytes in its table.
fn advance_at(bytes: &[u8], hmtx: Table, i: usize, least: usize) -> u16
    requires hmtx { IsTableIn bytes.now hmtx }
    requires short { length bytes.now ≤ max_file_bytes }
    requires i { i ≤ 1048576 }
    requires least { least ≤ 4 }
    ensures { result ≡ advance_at bytes.now hmtx i least }
{
    if hmtx.size < i + least {
        return 0;
    }
    u16_at(bytes, hmtx.place + i)
}

/// The advance of glyph g, where the first n glyphs have entries of their own.
fn entry_advance(bytes: &[u8], hmtx: Table, n: u16, g: u16) -> u16
    requires hmtx { IsTableIn bytes.now hmtx }
    requires short { length bytes.now ≤ max_file_bytes }
    ensures { result ≡ entry_advance bytes.now hmtx n g }
{
    if n == 0 {
        return 0;
    }
    if g < n {
        return advance_at(bytes, hmtx, 4 * usize::from(g), 4);
    }
    advance_at(bytes, hmtx, 4 * usize::from(n - 1), 2)
}

fn bearing_at(bytes: &[u8], hmtx: Table, i: usize) -> i32
    requires hmtx { IsTableIn bytes.now hmtx }
    requires short { length bytes.now ≤ max_file_bytes }
    requires i { i ≤ 1048576 }
    ensures value { result ≡ bearing_at bytes.now hmtx i }
    ensures least { neg_ℤ (pos 32768) ≤ℤ result }
    ensures most { result ≤ℤ pos 32767 }
{
    if hmtx.size < i + 2 {
        return 0;
    }
    s16_at(bytes, hmtx.place + i)
}

/// The bearing of glyph g.
fn bearing_in(bytes: &[u8], hmtx: Table, n: u16, g: u16) -> i32
    requires hmtx { IsTableIn bytes.now hmtx }
    requires short { length bytes.now ≤ max_file_bytes }
    ensures value { result ≡ bearing_in bytes.now hmtx n g }
    ensures least { neg_ℤ (pos 32768) ≤ℤ result }
    ensures most { result ≤ℤ pos 32767 }
{
    if g < n {
        return bearing_at(bytes, hmtx, 4 * usize::from(g) + 2);
    }
    bearing_at(bytes, hmtx, 4 * usize::from(n) + 2 * usize::from(g - n))
}

/// How wide glyph g is.
pub fn advance_of(font: &SfntFont, g: u16) -> u16
    requires { IsSfntFont font.now }
    ensures { result ≡ advance_of font.now g }
{
    entry_advance(font.bytes(), font.tables().hmtx, font.numbers().advances, g)
}

/// How far the least x of glyph g lies from 0.
pub fn bearing_of(font: &SfntFont, g: u16) -> i32
    requires { IsSfntFont font.now }
    ensures value { result ≡ bearing_of font.now g }
    ensures least { neg_ℤ (pos 32768) ≤ℤ result }
    ensures most { result ≤ℤ pos 32767 }
{
    bearing_in(font.bytes(), font.tables().hmtx, font.numbers().advances, g)
}
