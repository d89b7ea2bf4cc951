//! How far the unbroken line of a paragraph has come, from which the widths of all lines follow.

ghost use Rattle.std.specs.Prelude.{◌≡◌, ◌≤◌, ◌<◌, ◌+◌, length, slice_index, slice_index_or, IfOk};
ghost use Rattle.line_layout.specs.Breaks.{IsParagraph, pen};
ghost use Rattle.line_layout.specs.Filling.{ArePens, IsWidestWord, line_start};

use ass_num::{Fix, Mem};
use std::alloc::Global;

/// Where the unbroken line is at each break place, and at its end.
pub(crate) fn pens_of(alloc: Global, widths: &[Fix], spaces: &[usize]) -> Mem<Vec<Fix>>
    requires { IsParagraph widths.now spaces.now }
    ensures { IfOk result (λ pens. ArePens widths.now spaces.now pens.items) }
{
    let mut pens = Vec::with_capacity(alloc, spaces.len() + 1)?;
    let mut pen = 0;
    for (k, width) in widths.iter().enumerate() {
        if pens.len() < spaces.len() && spaces[pens.len()] == k {
            pens.push(pen)?;
        }
        pen += *width;
    }
    pens.push(pen)?;
    Ok(pens)
}

/// Where the unbroken line is when a line begins that has `k` break places before it.
pub(crate) fn begin_of(widths: &[Fix], spaces: &[usize], pens: &[Fix], k: usize) -> Fix
    requires paragraph { IsParagraph widths.now spaces.now }
    requires pens { ArePens widths.now spaces.now pens.now }
    requires place { k ≤ length spaces.now }
    ensures { result ≡ pen widths.now (line_start spaces.now k) }
{
    if k == 0 {
        0
    } else {
        pens[k - 1] + widths[spaces[k - 1]]
    }
}

/// The width of the widest word: a word is what stands between two break places that follow each other.
pub(crate) fn widest_word(widths: &[Fix], spaces: &[usize], pens: &[Fix]) -> Fix
    requires paragraph { IsParagraph widths.now spaces.now }
    requires pens { ArePens widths.now spaces.now pens.now }
    ensures { IsWidestWord widths.now spaces.now result }
{
    let mut widest = pens[0];
    for k in 1..pens.len() {
        widest = widest.max(pens[k] - begin_of(widths, spaces, pens, k));
    }
    widest
}
