//! The glyphs that a map gives the codes of its segments.

ghost use Rattle.std.specs.Prelude.{◌≡◌, ◌<◌, ◌≤◌, ◌^◌, length};
ghost use Rattle.ass_num.specs.Limits.{max_file_bytes};
ghost use Rattle.sfnt_font.specs.Maps.{max_code, IsMapIn};
ghost use Rattle.sfnt_font.specs.Fonts.{shifted_glyph, listed_glyph, glyph_by_offset, glyph_in_group, segment_glyph, held_glyph};

use crate::maps::{CharacterMap, MapFormat};
use font_bytes::{u16_at, u32_at};

fn shifted_glyph(shift: u16, glyph: u16) -> u64
    ensures { result ≡ shifted_glyph shift glyph }
{
    if glyph == 0 {
        return 0;
    }
    (u64::from(glyph) + u64::from(shift)) % 65_536
}

/// The glyph of a list's entry at a place, which a shift moves; 0 where it doesn't lie in the table.
fn listed_glyph(bytes: &[u8], map: CharacterMap, shift: u16, at: usize) -> u64
    requires { at < 2 ^ 40 }
    ensures { result ≡ listed_glyph bytes.now map shift at }
{
    if map.end < at + 2 {
        return 0;
    }
    shifted_glyph(shift, u16_at(bytes, at))
}

/// The glyph of a code of segment k, whose list has this offset.
fn glyph_by_offset(bytes: &[u8], map: CharacterMap, k: usize, code: u32, offset: u16) -> u64
    requires map { IsMapIn bytes.now map }
    requires short { length bytes.now ≤ max_file_bytes }
    requires k { k < map.count }
    requires code { code ≤ max_code }
    ensures { result ≡ glyph_by_offset bytes.now map k code offset }
{
    let shift = u16_at(bytes, map.shift_place(k));
    if offset == 0 {
        return (u64::from(code) + u64::from(shift)) % 65_536;
    }
    if offset == 65_535 {
        return 0;
    }
    let first = u32::from(u16_at(bytes, map.first_code_place(k)));
    let entry = 2 * code.saturating_sub(first) as usize;
    listed_glyph(
        bytes,
        map,
        shift,
        map.offset_place(k) + usize::from(offset) + entry,
    )
}

fn glyph_in_group(bytes: &[u8], map: CharacterMap, k: usize, code: u32) -> u64
    requires map { IsMapIn bytes.now map }
    requires short { length bytes.now ≤ max_file_bytes }
    requires k { k < map.count }
    ensures { result ≡ glyph_in_group bytes.now map k code }
{
    let place = map.group_place(k);
    let first = u32_at(bytes, place);
    u64::from(u32_at(bytes, place + 8)) + u64::from(code.saturating_sub(first))
}

/// The glyph of a code of segment k, or of group k.
pub fn segment_glyph(bytes: &[u8], map: CharacterMap, k: usize, code: u32) -> u64
    requires map { IsMapIn bytes.now map }
    requires short { length bytes.now ≤ max_file_bytes }
    requires k { k < map.count }
    requires code { code ≤ max_code }
    ensures { result ≡ segment_glyph map.format bytes.now map k code }
{
    match map.format {
        MapFormat::Ranges => glyph_by_offset(
            bytes,
            map,
            k,
            code,
            u16_at(bytes, map.offset_place(k)),
        ),
        MapFormat::Groups => glyph_in_group(bytes, map, k, code),
    }
}

/// A glyph of the font, or else 0.
pub fn held_glyph(count: u16, glyph: u64) -> u16
    ensures { result ≡ held_glyph count glyph }
{
    if glyph < u64::from(count) {
        glyph as u16
    } else {
        0
    }
}
