//! The colours of draws.

ghost use Rattle.std.specs.Prelude.{◌≡◌, ◌≤◌, ◌<◌, IsTrue, ◌*◌, pos, ◌≤ℤ◌, ◌<ℤ◌};
ghost use Rattle.ass_num.specs.Floor.{floor_div};
ghost use Rattle.ass_num.specs.Limits.{IsWithin};
ghost use Rattle.override_tags.specs.Views.{IsState, IsSyllable};
ghost use Rattle.outline_points.specs.Limits.{max_length};
ghost use Rattle.mask_keys.specs.Keys.{samples_across};
ghost use Rattle.draw_numbers.specs.Limits.{max_bound, sample};
ghost use Rattle.draw_numbers.specs.Colours as rule;

use crate::clips::held_bound;
use crate::products::length_between;
use ass_num::{Fix, Rgba};
use event_instants::{between, faded};
use override_tags::{State, Sung, Syllable};

/// The colours of a draw: `left` left of the column `edge` of the frame, and `right` from it on.
#[derive(Clone, Copy, Debug, PartialEq, Eq)]
pub struct Paint {
    pub left: Rgba,
    pub right: Rgba,
    pub edge: i32,
}

/// The colour, as far as a fade leaves it.
fn faded_colour(fade: u8, colour: Rgba) -> Rgba
    ensures { result ≡ rule.faded_colour fade colour }
{
    Rgba {
        a: faded(colour.a, fade),
        ..colour
    }
}

/// The primary colour of a state under a fade.
fn primary(fade: u8, state: &State) -> Rgba
    ensures { result ≡ rule.primary fade state.now }
{
    faded_colour(fade, state.colours[0])
}

/// Its secondary colour.
fn secondary(fade: u8, state: &State) -> Rgba
    ensures { result ≡ rule.secondary fade state.now }
{
    faded_colour(fade, state.colours[1])
}

/// The colour of its border.
pub fn outline_colour(fade: u8, state: &State) -> Rgba
    ensures { result ≡ rule.outline_colour fade state.now }
{
    faded_colour(fade, state.colours[2])
}

/// The colour of its shadow.
pub fn back_colour(fade: u8, state: &State) -> Rgba
    ensures { result ≡ rule.back_colour fade state.now }
{
    faded_colour(fade, state.colours[3])
}

/// One colour.
pub fn plain_paint(colour: Rgba) -> Paint
    ensures { result ≡ rule.plain_paint colour }
{
    Paint {
        left: colour,
        right: colour,
        edge: 0,
    }
}

/// Whether a syllable hasn't begun, so many milliseconds after the event's start.
fn is_awaited(elapsed: i64, sung: Option<Syllable>) -> bool
    ensures { result ≡ rule.is_awaited elapsed sung }
{
    match sung {
        Some(syllable) => elapsed < syllable.begin,
        None => false,
    }
}

/// Whether a syllable is swept (Aegisub tag reference, "\kf").
pub fn is_swept(elapsed: i64, syllable: &Syllable) -> bool
    ensures value { result ≡ rule.is_swept elapsed syllable.now }
    ensures begun { IsTrue result → syllable.now.begin ≤ℤ elapsed }
    ensures not_ended { IsTrue result → elapsed <ℤ syllable.now.end }
{
    match syllable.kind {
        Sung::Sweep => syllable.begin <= elapsed && elapsed < syllable.end,
        _ => false,
    }
}

/// Whether it hasn't begun and its border comes with it (Aegisub tag reference, "\ko").
pub fn lacks_border(elapsed: i64, sung: Option<Syllable>) -> bool
    ensures { result ≡ rule.lacks_border elapsed sung }
{
    match sung {
        Some(syllable) => match syllable.kind {
            Sung::Outline => elapsed < syllable.begin,
            _ => false,
        },
        None => false,
    }
}

/// Where a sweep has come to that goes from `left` to `right`.
fn swept_to(left: Fix, right: Fix, syllable: &Syllable, elapsed: i64) -> Fix
    requires left { IsWithin max_length left }
    requires right { IsWithin max_length right }
    requires begun { syllable.now.begin ≤ℤ elapsed }
    requires not_ended { elapsed <ℤ syllable.now.end }
    ensures { result ≡ rule.swept_to left right syllable.now elapsed }
{
    let gone = length_between(syllable.begin, elapsed);
    let length = length_between(syllable.begin, syllable.end);
    between(left, right, gone, length)
}

/// The column of the frame in which a place lies.
fn column_of(place: Fix) -> i64
    ensures { result ≡ floor_div place (pos (sample * samples_across)) }
{
    place.div_euclid(64)
}

/// The column of the frame to which a sweep has come.
fn sweep_edge(left: Fix, right: Fix, syllable: &Syllable, elapsed: i64) -> i32
    requires left { IsWithin max_length left }
    requires right { IsWithin max_length right }
    requires begun { syllable.now.begin ≤ℤ elapsed }
    requires not_ended { elapsed <ℤ syllable.now.end }
    ensures value { result ≡ rule.sweep_edge left right syllable.now elapsed }
    ensures within { IsWithin max_bound result }
{
    held_bound(column_of(swept_to(left, right, syllable, elapsed)))
}

/// What a swept syllable is filled with.
fn swept_paint(
    fade: u8,
    elapsed: i64,
    state: &State,
    left: Fix,
    right: Fix,
    syllable: &Syllable,
) -> Paint
    requires left { IsWithin max_length left }
    requires right { IsWithin max_length right }
    requires begun { syllable.now.begin ≤ℤ elapsed }
    requires not_ended { elapsed <ℤ syllable.now.end }
    ensures { result ≡ rule.swept_paint fade elapsed state.now left right syllable.now }
{
    Paint {
        left: primary(fade, state),
        right: secondary(fade, state),
        edge: sweep_edge(left, right, syllable, elapsed),
    }
}

/// What a syllable that has begun is filled with.
fn sung_paint(fade: u8, elapsed: i64, state: &State, left: Fix, right: Fix) -> Paint
    requires left { IsWithin max_length left }
    requires right { IsWithin max_length right }
    ensures { result ≡ rule.sung_paint fade elapsed state.now left right state.now.sung }
{
    match state.sung {
        Some(syllable) => {
            if is_swept(elapsed, &syllable) {
                swept_paint(fade, elapsed, state, left, right, &syllable)
            } else {
                plain_paint(primary(fade, state))
            }
        }
        None => plain_paint(primary(fade, state)),
    }
}

/// What a state is filled with under a fade, so many milliseconds after the event's start. Its syllable's items on the line go from
/// `left` to `right` (Aegisub tag reference, "\k").
pub fn fill_paint(fade: u8, elapsed: i64, state: &State, left: Fix, right: Fix) -> Paint
    requires left { IsWithin max_length left }
    requires right { IsWithin max_length right }
    ensures { result ≡ rule.fill_paint fade elapsed state.now left right }
{
    if is_awaited(elapsed, state.sung) {
        return plain_paint(secondary(fade, state));
    }
    sung_paint(fade, elapsed, state, left, right)
}
