//! The choice of the break places of a paragraph.

ghost use Rattle.std.specs.Prelude.{◌≡◌, ◌≤◌, ◌<◌, ◌≤ℤ◌, ◌<ℤ◌, ℤ, pos, ℕ, List, [], length, IfOk, true, false};
ghost use Rattle.line_layout.specs.Breaks.{AllFit, AreFilled, AreFrom, IsBest, IsParagraph};
ghost use Rattle.line_layout.specs.Filling.{ArePens, IsLeastLimit};

use crate::filling::{fill, fill_back};
use crate::pens::{pens_of, widest_word};
use ass_num::{Fix, Mem};
use std::alloc::Global;

/// The places at which a paragraph is broken into lines, in ascending order. `widths` has the width of each item, `spaces` the items that
/// are break places; an item at which a line is broken belongs to no line. A line fits where its width is at most `max`, or where no break
/// place lies in it. The wrap styles:
///
/// - 0: of all sets of places whose lines all fit, those that make the fewest lines; of these, those whose widest line is narrowest; of
///   these, the lexicographically greatest list of places
/// - 1: lines are filled from the front, each up to the last place that is within `max`, else up to the next one
/// - 2: none
/// - 3: as style 0, but the lexicographically least list
pub fn choose_breaks(
    alloc: Global,
    widths: &[Fix],
    spaces: &[usize],
    max: Fix,
    style: u8,
) -> Mem<Vec<usize>>
    requires paragraph { IsParagraph widths.now spaces.now }
    requires style { style ≤ 3 }
    ensures greatest { style ≡ 0 → IfOk result (λ places. IsBest widths.now spaces.now max true places.items) }
    ensures filled { style ≡ 1 → IfOk result (λ places. AreFilled widths.now spaces.now max 0 places.items) }
    ensures none { style ≡ 2 → IfOk result (λ places. places.items ≡ []) }
    ensures least { style ≡ 3 → IfOk result (λ places. IsBest widths.now spaces.now max false places.items) }
{
    let mut places = Vec::new(alloc);
    if style == 2 {
        return Ok(places);
    }
    let pens = pens_of(alloc, widths, spaces)?;
    fill(widths, spaces, pens.as_slice(), max, &mut places)?;
    if style == 1 || places.is_empty() {
        return Ok(places);
    }
    let limit = least_limit(widths, spaces, pens.as_slice(), max, &mut places)?;
    if style == 0 {
        fill(widths, spaces, pens.as_slice(), limit, &mut places)?;
    } else {
        fill_back(widths, spaces, pens.as_slice(), limit, &mut places)?;
    }
    Ok(places)
}

/// The least limit on the width of lines, from that of the widest word on and up to `max`, under which there are no more of them than in
/// `places`. It writes over `places`.
fn least_limit(
    widths: &[Fix],
    spaces: &[usize],
    pens: &[Fix],
    max: Fix,
    places: &mut Vec<usize>,
) -> Mem<Fix>
    requires paragraph { IsParagraph widths.now spaces.now }
    requires pens { ArePens widths.now spaces.now pens.now }
    requires filled { AreFilled widths.now spaces.now max 0 places.old.items }
    ensures { IfOk result (λ limit. IsLeastLimit widths.now spaces.now max (length places.old.items) limit) }
{
    let count = places.len();
    let mut low = widest_word(widths, spaces, pens).min(max);
    let mut high = max;
    while low < high {
        let middle = middle_of(low, high);
        fill(widths, spaces, pens, middle, places)?;
        if places.len() <= count {
            high = middle;
        } else {
            low = middle + 1;
        }
    }
    Ok(high)
}

/// A number halfway between the two.
fn middle_of(low: Fix, high: Fix) -> Fix
    requires from_zero { pos 0 ≤ℤ low }
    requires below { low <ℤ high }
    ensures from_low { low ≤ℤ result }
    ensures below_high { result <ℤ high }
{
    low + (high - low) / 2
}
