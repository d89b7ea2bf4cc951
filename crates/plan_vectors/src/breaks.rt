//! Breaks of a paragraph.

ghost use Rattle.std.specs.Prelude.{◌<◌, ◌≤◌, ◌+◌, ℕ, IsTrue, length, slice_index};
ghost use Rattle.std.specs.List.{All};
ghost use Rattle.line_layout.specs.Breaks.{IsItemWidth};

use crate::telling::numbers_of;
use crate::unreadable;
use ass_num::Fix;
use line_layout::choose_breaks;
use std::alloc::Global;
use std::io;

fn are_narrow(widths: &[Fix]) -> bool
    ensures { IsTrue result → All IsItemWidth widths.now }
{
    for width in widths {
        if *width < 0 || *width > 1_048_576 {
            return false;
        }
    }
    true
}

fn are_within(spaces: &[usize], count: usize) -> bool
    ensures { IsTrue result → (k : ℕ) → k < length spaces.now → slice_index spaces.now k < count }
{
    for place in spaces {
        if *place >= count {
            return false;
        }
    }
    true
}

fn ascend(spaces: &[usize]) -> bool
    ensures { IsTrue result → (k : ℕ) → k + 1 < length spaces.now → slice_index spaces.now k < slice_index spaces.now (k + 1) }
{
    for k in 1..spaces.len() {
        if spaces[k - 1] >= spaces[k] {
            return false;
        }
    }
    true
}

/// Prints the breaks of items of these widths, with these spaces among them.
fn show_places(
    rt: &HostRuntime,
    question: &str,
    widths: &[Fix],
    spaces: &[usize],
    [max, style]: [i64; 2],
) -> io::Result<()> {
    let style = u8::try_from(style).unwrap_or(9);
    if widths.len() > 134_217_728
        || !are_narrow(widths)
        || !are_within(spaces, widths.len())
        || !ascend(spaces)
        || style > 3
    {
        return Err(unreadable());
    }
    match choose_breaks(rt.alloc(), widths, spaces, max, style) {
        Ok(places) => println!(rt; "breaks {question} => {:?}", places.as_slice()),
        Err(_) => Err(unreadable()),
    }
}

fn places_of(alloc: Global, text: &str) -> io::Result<Vec<usize>> {
    let mut places = Vec::new(alloc);
    for word in text.split_whitespace() {
        places.push(usize::from(word.parse::<u16>().unwrap_or(0)))?;
    }
    Ok(places)
}

/// Prints the breaks of so many items of 64, under a maximum, in a style; behind a bar stand the spaces among the items.
pub fn show_breaks(rt: &HostRuntime, question: &str) -> io::Result<()> {
    let (sizes, spaces) = question.split_once(" |").ok_or(unreadable())?;
    let sizes = numbers_of(rt.alloc(), sizes)?;
    let spaces = places_of(rt.alloc(), spaces)?;
    let [count, max, style] = sizes.as_slice() else {
        return Err(unreadable());
    };
    let wide = [64; 12];
    let widths = &wide[..wide.len().min(usize::try_from(*count).unwrap_or(0))];
    show_places(rt, question, widths, spaces.as_slice(), [*max, *style])
}
