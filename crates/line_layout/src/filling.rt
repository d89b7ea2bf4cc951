//! Lines filled one after another, from the front or from the back.

ghost use Rattle.std.specs.Prelude.{◌≡◌, ◌≤◌, ◌<◌, ◌+◌, ◌-◌, ◌≤ℤ◌, ◌<ℤ◌, ◌-ℤ◌, ℤ, pos, ℕ, length, slice_index_or, OnOk, false};
ghost use Rattle.line_layout.specs.Breaks.{AreFilled, IsParagraph, width};
ghost use Rattle.line_layout.specs.Filling.{ArePens, IsOutermost, line_end, line_start};

use crate::pens::begin_of;
use ass_num::{Fix, Mem};

/// The places at which lines are broken that are filled from the front. A word that is wider than the limit has a line of its own.
pub(crate) fn fill(
    widths: &[Fix],
    spaces: &[usize],
    pens: &[Fix],
    limit: Fix,
    places: &mut Vec<usize>,
) -> Mem<()>
    requires paragraph { IsParagraph widths.now spaces.now }
    requires pens { ArePens widths.now spaces.now pens.now }
    ensures { OnOk result (AreFilled widths.now spaces.now limit 0 places.new.items) }
{
    places.clear();
    let mut first = 0;
    loop {
        let end = line_to(widths, spaces, pens, first, limit);
        if end == spaces.len() {
            return Ok(());
        }
        places.push(spaces[end])?;
        first = end + 1;
    }
}

/// The last break place (or the end) up to which the line from after `first` places is no wider than the limit, but at least the next one.
fn line_to(widths: &[Fix], spaces: &[usize], pens: &[Fix], first: usize, limit: Fix) -> usize
    requires paragraph { IsParagraph widths.now spaces.now }
    requires pens { ArePens widths.now spaces.now pens.now }
    requires first { first ≤ length spaces.now }
    ensures onward { first ≤ result }
    ensures within { result ≤ length spaces.now }
    ensures narrow { first < result → width widths.now (line_start spaces.now first) (line_end widths.now spaces.now result) ≤ℤ limit }
    ensures last { result < length spaces.now → limit <ℤ width widths.now (line_start spaces.now first) (line_end widths.now spaces.now (result + 1)) }
{
    let begin = begin_of(widths, spaces, pens, first);
    let mut end = first;
    while end < spaces.len() && pens[end + 1] - begin <= limit {
        end += 1;
    }
    end
}

/// The places at which lines are broken that are filled from the back.
pub(crate) fn fill_back(
    widths: &[Fix],
    spaces: &[usize],
    pens: &[Fix],
    limit: Fix,
    places: &mut Vec<usize>,
) -> Mem<()>
    requires paragraph { IsParagraph widths.now spaces.now }
    requires pens { ArePens widths.now spaces.now pens.now }
    ensures { OnOk result (IsOutermost widths.now spaces.now limit false places.new.items) }
{
    places.clear();
    let mut end = spaces.len();
    loop {
        let first = line_from(widths, spaces, pens, end, limit);
        if first == 0 {
            break;
        }
        end = first - 1;
        places.push(spaces[end])?;
    }
    places.reverse();
    Ok(())
}

/// After how many places the longest line to `end` begins that is no wider than the limit, but at least that of the last word.
fn line_from(widths: &[Fix], spaces: &[usize], pens: &[Fix], end: usize, limit: Fix) -> usize
    requires paragraph { IsParagraph widths.now spaces.now }
    requires pens { ArePens widths.now spaces.now pens.now }
    requires end { end ≤ length spaces.now }
    ensures back { result ≤ end }
    ensures narrow { result < end → width widths.now (line_start spaces.now result) (line_end widths.now spaces.now end) ≤ℤ limit }
    ensures last { 0 < result → limit <ℤ width widths.now (line_start spaces.now (result - 1)) (line_end widths.now spaces.now end) }
{
    let mut first = end;
    while first > 0 && pens[end] - begin_of(widths, spaces, pens, first - 1) <= limit {
        first -= 1;
    }
    first
}
