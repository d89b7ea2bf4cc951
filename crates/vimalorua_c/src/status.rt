//! The numbers that calls return. c/vimalorua.h has them again.

ghost use Rattle.std.specs.Prelude.{◌≡◌};
ghost use Rattle.vimalorua_c.specs.Statuses as rule;

use ass_num::Mem;
use ass_script::{EventField, ScriptRefusal};
use bdf_font::{FontFileRefusal, FontRefusal};
use embedded_fonts::EmbeddedRefusal;
use frame_change::ChangeKind;
use script_fonts::ScriptFontsRefusal;
use sfnt_font::SfntRefusal;
use shared_player::{ShareRefusal, SplitRefusal};
use track_history::{Feed, Flushed, LookRefusal, TurnOut};

/// The call did what it says.
pub const DONE: i32 = 0;

/// The script's bytes are not UTF-8.
pub const NOT_UTF8: i32 = 1;

/// No line of the script is the heading `[Events]`.
pub const NO_EVENTS: i32 = 2;

/// The script has more than 1,000,000 Dialogue lines.
pub const MANY_LINES: i32 = 3;

/// The script has more than 10,000 styles.
pub const MANY_STYLES: i32 = 4;

/// Memory was refused.
pub const OUT_OF_MEMORY: i32 = 5;

/// The font has a faulty line or byte.
pub const BAD_FONT: i32 = 6;

/// The font has more than 131,072 glyphs, or its file more than 64 faces.
pub const LARGE_FONT: i32 = 7;

/// The player has 64 fonts already.
pub const MANY_FONTS: i32 = 8;

/// Nothing is drawn before a font was added.
pub const NO_FONT: i32 = 9;

/// The ReadOrder is that of an event fed before.
pub const REPEATED: i32 = 10;

/// A field of the chunk can't be read or is missing.
pub const MALFORMED: i32 = 11;

/// The track has 1,000,000 live events already.
pub const FULL: i32 = 12;

/// The track was flushed 1,000,000 times already.
pub const MANY_FLUSHES: i32 = 13;

/// A number or a length is out of its range.
pub const BAD_CALL: i32 = 14;

/// Nothing is behind the handle.
pub const CLOSED: i32 = 15;

/// The data of a font in a script leave their format.
pub const BAD_FONT_DATA: i32 = 16;

/// Another seat has the track.
pub const BUSY: i32 = 17;

/// Seats are split off the first one alone.
pub const NOT_FIRST: i32 = 18;

/// All numbers of seats were given.
pub const MANY_SEATS: i32 = 19;

/// The track of a player that is to be shared has entries already.
pub const WAS_FED: i32 = 20;

/// The most fonts of a player.
pub(crate) const MAX_FONTS: usize = 64;

/// A status, and the place that goes with it, or 0.
#[derive(Clone, Copy, Debug, PartialEq, Eq)]
pub struct Told {
    pub status: i32,
    pub place: usize,
}

/// A status with its place.
pub fn told_at(status: i32, place: usize) -> Told
    ensures { result ≡ record { status = status; place = place } }
{
    Told { status, place }
}

/// Why a script isn't read.
pub fn script_told(refusal: ScriptRefusal) -> Told
    ensures { result ≡ rule.script_told refusal }
{
    match refusal {
        ScriptRefusal::NotUtf8(front) => told_at(NOT_UTF8, front),
        ScriptRefusal::NoEvents => told_at(NO_EVENTS, 0),
        ScriptRefusal::TooManyLines(most) => told_at(MANY_LINES, most),
        ScriptRefusal::TooManyStyles(most) => told_at(MANY_STYLES, most),
        ScriptRefusal::OutOfMemory => told_at(OUT_OF_MEMORY, 0),
    }
}

/// Why lines aren't a font.
fn lines_told(refusal: FontRefusal) -> Told
    ensures { result ≡ rule.lines_told refusal }
{
    match refusal {
        FontRefusal::BadFont(line, _) => told_at(BAD_FONT, line),
        FontRefusal::TooLarge(most) => told_at(LARGE_FONT, most),
        FontRefusal::OutOfMemory => told_at(OUT_OF_MEMORY, 0),
    }
}

/// Why the bytes of a TrueType file aren't one.
fn bytes_told(refusal: SfntRefusal) -> Told
    ensures { result ≡ rule.bytes_told refusal }
{
    match refusal {
        SfntRefusal::BadFont(byte, _) => told_at(BAD_FONT, byte),
        SfntRefusal::TooLarge(most) => told_at(LARGE_FONT, most),
        SfntRefusal::OutOfMemory => told_at(OUT_OF_MEMORY, 0),
    }
}

/// Why a font isn't read.
pub fn font_told(refusal: FontFileRefusal) -> Told
    ensures { result ≡ rule.font_told refusal }
{
    match refusal {
        FontFileRefusal::Lines(refusal) => lines_told(refusal),
        FontFileRefusal::Bytes(refusal) => bytes_told(refusal),
    }
}

/// Why the fonts that a script holds aren't decoded.
fn data_told(refusal: ScriptFontsRefusal) -> Told
    ensures { result ≡ rule.data_told refusal }
{
    match refusal {
        ScriptFontsRefusal::BadCharacter(line) => told_at(BAD_FONT_DATA, line),
        ScriptFontsRefusal::BadLength(line) => told_at(BAD_FONT_DATA, line),
        ScriptFontsRefusal::OutOfMemory => told_at(OUT_OF_MEMORY, 0),
    }
}

/// Why the fonts that a script holds aren't read.
pub fn embedded_told(refusal: EmbeddedRefusal) -> Told
    ensures { result ≡ rule.embedded_told refusal }
{
    match refusal {
        EmbeddedRefusal::Data(refusal) => data_told(refusal),
        EmbeddedRefusal::Font(place, refusal) => told_at(font_told(refusal).status, place),
        EmbeddedRefusal::TooMany => told_at(MANY_FONTS, MAX_FONTS),
    }
}

/// The answer to a feed.
pub fn feed_told(answer: Feed) -> Told
    ensures { result ≡ rule.feed_told answer }
{
    match answer {
        Feed::Accepted(entry) => told_at(DONE, entry),
        Feed::Repeated(entry) => told_at(REPEATED, entry),
        Feed::Malformed(_, byte) => told_at(MALFORMED, byte),
        Feed::Full(most) => told_at(FULL, most),
        Feed::OutOfMemory => told_at(OUT_OF_MEMORY, 0),
    }
}

/// The number of a field, from 1.
fn field_number(field: EventField) -> u32
    ensures { result ≡ rule.field_number field }
{
    match field {
        EventField::ReadOrder => 1,
        EventField::Layer => 2,
        EventField::Start => 3,
        EventField::End => 4,
        EventField::Duration => 5,
        EventField::Style => 6,
        EventField::Name => 7,
        EventField::MarginL => 8,
        EventField::MarginR => 9,
        EventField::MarginV => 10,
        EventField::Effect => 11,
        EventField::Text => 12,
        EventField::Utf8 => 13,
        EventField::Other => 14,
    }
}

/// The number of the field that a feed refused, or 0.
pub fn fed_field(answer: Feed) -> u32
    ensures { result ≡ rule.fed_field answer }
{
    match answer {
        Feed::Malformed(field, _) => field_number(field),
        Feed::Accepted(_) | Feed::Repeated(_) | Feed::Full(_) | Feed::OutOfMemory => 0,
    }
}

/// The answer to a flush.
pub fn flush_told(answer: Flushed) -> Told
    ensures { result ≡ rule.flush_told answer }
{
    match answer {
        Flushed::Done(entry) => told_at(DONE, entry),
        Flushed::TooMany(most) => told_at(MANY_FLUSHES, most),
    }
}

/// The answer to a try to feed.
pub fn tried_feed_told(answer: Result<Feed, TurnOut>) -> Told
    ensures { result ≡ rule.tried_feed_told answer }
{
    match answer {
        Ok(answer) => feed_told(answer),
        Err(_) => told_at(BUSY, 0),
    }
}

/// The number of the field that a try to feed refused, or 0.
pub fn tried_field(answer: Result<Feed, TurnOut>) -> u32
    ensures { result ≡ rule.tried_field answer }
{
    match answer {
        Ok(answer) => fed_field(answer),
        Err(_) => 0,
    }
}

/// The answer to a try to flush.
pub fn tried_flush_told(answer: Result<Flushed, TurnOut>) -> Told
    ensures { result ≡ rule.tried_flush_told answer }
{
    match answer {
        Ok(answer) => flush_told(answer),
        Err(_) => told_at(BUSY, 0),
    }
}

/// The answer to a try to feed the line behind so many, and how many are in.
pub fn line_told(from: usize, answer: Result<Mem<usize>, TurnOut>) -> Told
    ensures { result ≡ rule.line_told from answer }
{
    match answer {
        Ok(Ok(count)) => told_at(DONE, count),
        Ok(Err(_)) => told_at(OUT_OF_MEMORY, from),
        Err(_) => told_at(BUSY, from),
    }
}

/// Why there is no picture.
pub fn look_status(refusal: LookRefusal) -> i32
    ensures { result ≡ rule.look_status refusal }
{
    match refusal {
        LookRefusal::TurnOut => BUSY,
        LookRefusal::OutOfMemory => OUT_OF_MEMORY,
    }
}

/// Why a player isn't shared.
pub fn share_status(refusal: ShareRefusal) -> i32
    ensures { result ≡ rule.share_status refusal }
{
    match refusal {
        ShareRefusal::WasFed => WAS_FED,
        ShareRefusal::OutOfMemory => OUT_OF_MEMORY,
    }
}

/// Why no seat is split off.
pub fn split_status(refusal: SplitRefusal) -> i32
    ensures { result ≡ rule.split_status refusal }
{
    match refusal {
        SplitRefusal::NotFirst => NOT_FIRST,
        SplitRefusal::TooMany => MANY_SEATS,
        SplitRefusal::OutOfMemory => OUT_OF_MEMORY,
    }
}

/// The number of a change, as `detect_change` of `ass_render_frame` has it (libass `ass.h`).
pub fn change_number(kind: ChangeKind) -> i32
    ensures { result ≡ rule.change_number kind }
{
    match kind {
        ChangeKind::Same => 0,
        ChangeKind::Moved => 1,
        ChangeKind::Other => 2,
    }
}
