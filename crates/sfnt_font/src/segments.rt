//! The segments of a map: which codes it has, in ascending order.

ghost use Rattle.std.specs.Prelude.{◌≡◌, ◌<◌, ◌≤◌, ◌*◌, length, true, IfOk, IfSome};
ghost use Rattle.ass_num.specs.Limits.{max_file_bytes};
ghost use Rattle.sfnt_font.specs.Answers.{Answers};
ghost use Rattle.sfnt_font.specs.Maps.{max_code, group_at, range_at, segment_at, segments_of, IsMapIn, IsBehind};
ghost use Rattle.sfnt_font.specs.Ranges.{are_in_order};
ghost use Rattle.sfnt_font.specs.Fonts.{segment_of, place_in};

use crate::cause::{SfntCause, SfntRefusal};
use crate::maps::{CharacterMap, MapFormat};
use ass_num::Items;
use font_bytes::{u16_at, u32_at};
use std::alloc::Global;

/// The last code of a character.
const MAX_CODE: u32 = 1_114_111;

/// The codes from `first` to `last`, and how many codes the segments before have.
#[derive(Clone, Copy, Debug)]
pub struct Segment {
    pub first: u32,
    pub last: u32,
    pub before: u32,
}

/// The codes of group k, where those below `low` are passed.
fn group_at(
    bytes: &[u8],
    map: CharacterMap,
    k: usize,
    low: u32,
    before: u32,
) -> Result<Segment, SfntRefusal>
    requires map { IsMapIn bytes.now map }
    requires short { length bytes.now ≤ max_file_bytes }
    requires k { k < map.count }
    requires before { before ≤ low }
    ensures value { result ≡ group_at bytes.now map k low before }
    ensures behind { IfOk result (IsBehind low before) }
{
    let place = map.group_place(k);
    let first = u32_at(bytes, place);
    let last = u32_at(bytes, place + 4);
    if low <= first && first <= last && last <= MAX_CODE {
        return Ok(Segment {
            first,
            last,
            before,
        });
    }
    Err(SfntRefusal::BadFont(place, SfntCause::BadMap))
}

/// The codes of segment k, those below `low` left out.
fn range_at(
    bytes: &[u8],
    map: CharacterMap,
    k: usize,
    low: u32,
    before: u32,
) -> Result<Segment, SfntRefusal>
    requires map { IsMapIn bytes.now map }
    requires short { length bytes.now ≤ max_file_bytes }
    requires k { k < map.count }
    requires before { before ≤ low }
    ensures value { result ≡ range_at bytes.now map k low before }
    ensures behind { IfOk result (IsBehind low before) }
{
    let last_code_place = map.last_code_place(k);
    let first_code_place = map.first_code_place(k);
    let last = u32::from(u16_at(bytes, last_code_place));
    let first = u32::from(u16_at(bytes, first_code_place));
    if last < low {
        return Err(SfntRefusal::BadFont(last_code_place, SfntCause::BadMap));
    }
    if last < first {
        return Err(SfntRefusal::BadFont(first_code_place, SfntCause::BadMap));
    }
    Ok(Segment {
        first: first.max(low),
        last,
        before,
    })
}

fn segment_at(
    bytes: &[u8],
    map: CharacterMap,
    k: usize,
    low: u32,
    before: u32,
) -> Result<Segment, SfntRefusal>
    requires map { IsMapIn bytes.now map }
    requires short { length bytes.now ≤ max_file_bytes }
    requires k { k < map.count }
    requires before { before ≤ low }
    ensures value { result ≡ segment_at bytes.now map k low before }
    ensures behind { IfOk result (IsBehind low before) }
{
    match map.format {
        MapFormat::Groups => group_at(bytes, map, k, low, before),
        MapFormat::Ranges => range_at(bytes, map, k, low, before),
    }
}

/// The segments of a map, or the first that isn't behind those before.
pub fn segments_of(
    alloc: Global,
    bytes: &[u8],
    map: CharacterMap,
) -> Result<Items<Segment>, SfntRefusal>
    requires map { IsMapIn bytes.now map }
    requires short { length bytes.now ≤ max_file_bytes }
    ensures answer { Answers (segments_of bytes.now map) result }
    ensures in_order { IfOk result (λ segments. are_in_order 0 0 segments ≡ true) }
    ensures counted { IfOk result (λ segments. length segments ≡ map.count) }
{
    let mut segments = Items::with_capacity(alloc, map.count)?;
    let mut low = 0;
    let mut before = 0;
    for k in 0..map.count {
        let segment = segment_at(bytes, map, k, low, before)?;
        segments.push(segment)?;
        low = segment.last + 1;
        before += low - segment.first;
    }
    Ok(segments)
}

/// The number of the segment that has the code.
pub fn segment_of(segments: &[Segment], code: u32) -> Option<usize>
    requires { are_in_order 0 0 segments.now ≡ true }
    ensures value { result ≡ segment_of segments.now code }
    ensures within { IfSome result (λ k. k < length segments.now) }
{
    let at = segments.partition_point(|segment| segment.last < code);
    if at < segments.len() && segments[at].first <= code {
        return Some(at);
    }
    None
}

/// The place of a code of a segment among the codes of all.
pub fn place_in(segment: &Segment, code: u32) -> u32
    requires before { segment.now.before ≤ max_code }
    requires code { code ≤ max_code }
    ensures value { result ≡ place_in segment.now code }
    ensures most { result ≤ 2 * max_code }
{
    segment.before + code.saturating_sub(segment.first)
}
