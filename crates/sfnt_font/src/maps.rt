//! The map from characters to glyphs that a font's `cmap` has.

ghost use Rattle.std.specs.Prelude.{◌≡◌, ◌<◌, ◌≤◌, ◌^◌, length, IfOk};
ghost use Rattle.ass_num.specs.Limits.{max_file_bytes};
ghost use Rattle.sfnt_font.specs.Directory.{IsTableIn};
ghost use Rattle.sfnt_font.specs.Maps.{windows_rank, unicode_rank, map_rank, is_read_map, choice_at, better, best_map, chosen_map, groups_map, ranges_map};
ghost use Rattle.sfnt_font.specs.Maps.{whole_map, map_of, no_choice, last_code_place, first_code_place};
ghost use Rattle.sfnt_font.specs.Maps.{shift_place, offset_place, group_place, IsSmallMap, IsMapIn};

use crate::cause::{SfntCause, SfntRefusal};
use crate::directory::Table;
use font_bytes::{u16_at, u32_at};

/// What a record whose map isn't read is ranked.
const NO_RANK: u8 = 9;

/// The rank of a map of symbols.
const SYMBOL_RANK: u8 = 8;

/// A map of a `cmap`, and its rank.
#[derive(Clone, Copy)]
pub struct Choice {
    rank: u8,
    place: usize,
}

/// How a map stands in its table.
#[derive(Clone, Copy, Debug)]
pub enum MapFormat {
    /// Format 4: segments, in four lists.
    Ranges,
    /// Format 12: groups.
    Groups,
}

/// The map of a font's characters: where it begins, where its table ends, how many segments or groups it has, and
/// whether it is one of symbols.
#[derive(Clone, Copy, Debug)]
pub struct CharacterMap {
    pub format: MapFormat,
    pub place: usize,
    pub end: usize,
    pub count: usize,
    pub is_symbol: bool,
}

impl CharacterMap {
    /// Where the last code of segment k stands.
    pub fn last_code_place(&self, k: usize) -> usize
        requires map { IsSmallMap self.now }
        requires k { k < self.now.count }
        ensures { result ≡ last_code_place self.now k }
    {
        self.place + 14 + 2 * k
    }

    /// Where its first code stands.
    pub fn first_code_place(&self, k: usize) -> usize
        requires map { IsSmallMap self.now }
        requires k { k < self.now.count }
        ensures { result ≡ first_code_place self.now k }
    {
        self.place + 16 + 2 * self.count + 2 * k
    }

    /// Where its shift stands.
    pub fn shift_place(&self, k: usize) -> usize
        requires map { IsSmallMap self.now }
        requires k { k < self.now.count }
        ensures { result ≡ shift_place self.now k }
    {
        self.place + 16 + 4 * self.count + 2 * k
    }

    /// Where the offset of its list stands.
    pub fn offset_place(&self, k: usize) -> usize
        requires map { IsSmallMap self.now }
        requires k { k < self.now.count }
        ensures { result ≡ offset_place self.now k }
    {
        self.place + 16 + 6 * self.count + 2 * k
    }

    /// Where group k stands.
    pub fn group_place(&self, k: usize) -> usize
        requires map { IsSmallMap self.now }
        requires k { k < self.now.count }
        ensures { result ≡ group_place self.now k }
    {
        self.place + 16 + 12 * k
    }
}

fn windows_rank(encoding: u16) -> u8
    ensures { result ≡ windows_rank encoding }
{
    match encoding {
        10 => 0,
        1 => 3,
        0 => SYMBOL_RANK,
        _ => NO_RANK,
    }
}

fn unicode_rank(encoding: u16) -> u8
    ensures { result ≡ unicode_rank encoding }
{
    match encoding {
        6 => 1,
        4 => 2,
        3 => 4,
        2 => 5,
        1 => 6,
        0 => 7,
        _ => NO_RANK,
    }
}

/// Of which maps the first is chosen: those of the least rank.
fn map_rank(platform: u16, encoding: u16) -> u8
    ensures { result ≡ map_rank platform encoding }
{
    match platform {
        3 => windows_rank(encoding),
        0 => unicode_rank(encoding),
        _ => NO_RANK,
    }
}

/// Whether a map begins in its table, and has a format that is read.
fn is_read_map(bytes: &[u8], cmap: Table, at: usize) -> bool
    requires cmap { IsTableIn bytes.now cmap }
    requires short { length bytes.now ≤ max_file_bytes }
    requires at { at < 2 ^ 33 }
    ensures { result ≡ is_read_map bytes.now cmap at }
{
    let format = u16_at(bytes, at);
    at + 2 <= cmap.end() && (format == 4 || format == 12)
}

/// The map of the record at a place.
fn choice_at(bytes: &[u8], cmap: Table, at: usize) -> Choice
    requires cmap { IsTableIn bytes.now cmap }
    requires short { length bytes.now ≤ max_file_bytes }
    requires at { at < 2 ^ 33 }
    ensures value { result ≡ choice_at bytes.now cmap at }
    ensures place { result.place < 2 ^ 33 }
{
    let place = cmap.place + u32_at(bytes, at + 4) as usize;
    if is_read_map(bytes, cmap, place) {
        let rank = map_rank(u16_at(bytes, at), u16_at(bytes, at + 2));
        return Choice { rank, place };
    }
    Choice {
        rank: NO_RANK,
        place: 0,
    }
}

fn better(best: Choice, next: Choice) -> Choice
    requires best { best.place < 2 ^ 33 }
    requires next { next.place < 2 ^ 33 }
    ensures value { result ≡ better best next }
    ensures place { result.place < 2 ^ 33 }
{
    if next.rank < best.rank { next } else { best }
}

/// The first of the best maps of n records from `first` on.
fn best_map(bytes: &[u8], cmap: Table, first: usize, n: u16) -> Choice
    requires cmap { IsTableIn bytes.now cmap }
    requires short { length bytes.now ≤ max_file_bytes }
    requires first { first < 2 ^ 32 }
    ensures value { result ≡ best_map bytes.now cmap first n no_choice }
    ensures place { result.place < 2 ^ 33 }
{
    let mut best = Choice {
        rank: NO_RANK,
        place: 0,
    };
    for k in 0..n {
        best = better(best, choice_at(bytes, cmap, first + 8 * usize::from(k)));
    }
    best
}

/// The map that is chosen.
fn chosen_map(bytes: &[u8], cmap: Table) -> Result<Choice, SfntRefusal>
    requires cmap { IsTableIn bytes.now cmap }
    requires short { length bytes.now ≤ max_file_bytes }
    ensures value { result ≡ chosen_map bytes.now cmap }
    ensures place { IfOk result (λ choice. choice.place < 2 ^ 33) }
{
    let count = u16_at(bytes, cmap.place + 2);
    if cmap.end() < cmap.place + 4 + 8 * usize::from(count) {
        return Err(SfntRefusal::BadFont(cmap.place + 2, SfntCause::BadMap));
    }
    let best = best_map(bytes, cmap, cmap.place + 4, count);
    if best.rank == NO_RANK {
        return Err(SfntRefusal::BadFont(cmap.place, SfntCause::NoMap));
    }
    Ok(best)
}

fn groups_map(bytes: &[u8], cmap: Table, choice: Choice) -> Result<CharacterMap, SfntRefusal>
    requires cmap { IsTableIn bytes.now cmap }
    requires short { length bytes.now ≤ max_file_bytes }
    requires choice { choice.place < 2 ^ 33 }
    ensures value { result ≡ groups_map bytes.now cmap choice }
    ensures within { IfOk result (IsMapIn bytes.now) }
{
    let end = cmap.end();
    let place = choice.place;
    if end < place + 16 {
        return Err(SfntRefusal::BadFont(place, SfntCause::BadMap));
    }
    let count = u32_at(bytes, place + 12) as usize;
    if end < place + 16 + 12 * count {
        return Err(SfntRefusal::BadFont(place + 12, SfntCause::BadMap));
    }
    Ok(CharacterMap {
        format: MapFormat::Groups,
        place,
        end,
        count,
        is_symbol: choice.rank == SYMBOL_RANK,
    })
}

fn ranges_map(bytes: &[u8], cmap: Table, choice: Choice) -> Result<CharacterMap, SfntRefusal>
    requires cmap { IsTableIn bytes.now cmap }
    requires short { length bytes.now ≤ max_file_bytes }
    requires choice { choice.place < 2 ^ 33 }
    ensures value { result ≡ ranges_map bytes.now cmap choice }
    ensures within { IfOk result (IsMapIn bytes.now) }
{
    let end = cmap.end();
    let place = choice.place;
    if end < place + 14 {
        return Err(SfntRefusal::BadFont(place, SfntCause::BadMap));
    }
    let count = usize::from(u16_at(bytes, place + 6) / 2);
    if end < place + 16 + 8 * count {
        return Err(SfntRefusal::BadFont(place + 6, SfntCause::BadMap));
    }
    Ok(CharacterMap {
        format: MapFormat::Ranges,
        place,
        end,
        count,
        is_symbol: choice.rank == SYMBOL_RANK,
    })
}

/// The map of a font.
pub fn map_of(bytes: &[u8], cmap: Table) -> Result<CharacterMap, SfntRefusal>
    requires cmap { IsTableIn bytes.now cmap }
    requires short { length bytes.now ≤ max_file_bytes }
    ensures value { result ≡ map_of bytes.now cmap }
    ensures within { IfOk result (IsMapIn bytes.now) }
{
    let choice = chosen_map(bytes, cmap)?;
    if u16_at(bytes, choice.place) == 12 {
        return groups_map(bytes, cmap, choice);
    }
    ranges_map(bytes, cmap, choice)
}
