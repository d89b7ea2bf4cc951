//! Clips.

ghost use Rattle.std.specs.Prelude.{◌≡◌, IfOk};
ghost use Rattle.std.specs.Option.{option_map};
ghost use Rattle.tag_arguments.specs.Cuts.{bracketed};
ghost use Rattle.tag_arguments.specs.Numbers.{comma_pieces};
ghost use Rattle.override_tags.specs.Singles.{rectangle_of, scale_of, ReadsDrawn, ReadsScaled, ReadsClipPieces, ReadsClip};

use crate::single::whole;
use crate::tag::{ClipTag, Tag};
use ass_num::text_blanks::trimmed;
use ass_num::{Mem, Milli, hold};
use drawing_path::read_path;
use std::alloc::Global;
use tag_arguments::{Numbers, bracketed, first_piece, number_list, read_front};

/// A clip by four numbers.
fn rectangle(inverse: bool, numbers: &[Milli]) -> Option<Tag>
    ensures { result ≡ rectangle_of inverse (Some numbers.now) }
{
    match numbers {
        [x1, y1, x2, y2] => Some(Tag::Clip(ClipTag::Rect([*x1, *y1, *x2, *y2], inverse))),
        _ => None,
    }
}

/// A clip by the numbers of an argument, if they are four.
fn rectangle_tag(inverse: bool, numbers: &Option<Numbers>) -> Option<Tag>
    ensures { result ≡ rectangle_of inverse (option_map (λ n. n.items) numbers.now) }
{
    match numbers {
        Some(numbers) => rectangle(inverse, numbers.as_slice()),
        None => None,
    }
}

/// A clip by a drawing at a scale.
fn drawn_tag(alloc: Global, inverse: bool, drawing: &str, scale: u32) -> Mem<Option<Tag>>
    ensures { IfOk result (λ tag. ReadsDrawn inverse drawing.now scale tag) }
{
    let path = read_path(alloc, trimmed(drawing))?;
    Ok(Some(Tag::Clip(ClipTag::Drawn(path, scale, inverse))))
}

/// The scale of a drawing: a whole number, held within 1 and 30.
fn scale_of(value: Milli) -> u32
    ensures { result ≡ scale_of value }
{
    hold(i128::from(whole(value)), 1, 30) as u32
}

/// A clip by a drawing at a scale, if that is a number.
fn scaled_tag(alloc: Global, inverse: bool, drawing: &str, scale: Option<Milli>) -> Mem<Option<Tag>>
    ensures { IfOk result (λ tag. ReadsScaled inverse drawing.now scale tag) }
{
    match scale {
        Some(scale) => drawn_tag(alloc, inverse, drawing, scale_of(scale)),
        None => Ok(None),
    }
}

/// A clip by what stands in its brackets: a drawing, a scale and a drawing, or four numbers.
fn inside_tag(alloc: Global, inverse: bool, inside: &str) -> Mem<Option<Tag>>
    ensures { IfOk result (λ tag. ReadsClipPieces inverse (comma_pieces inside.now) tag) }
{
    let (first, others) = first_piece(inside);
    match others {
        None => drawn_tag(alloc, inverse, first, 1),
        Some(others) => {
            let (second, more) = first_piece(others);
            match more {
                None => scaled_tag(alloc, inverse, second, read_front(trimmed(first))),
                Some(_) => Ok(rectangle_tag(inverse, &number_list(inside, false))),
            }
        }
    }
}

/// A clip by the text behind its name.
pub fn clip_tag(alloc: Global, rest: &str, inverse: bool) -> Mem<Option<Tag>>
    ensures { IfOk result (λ tag. ReadsClip inverse (bracketed rest.now) tag) }
{
    match bracketed(rest) {
        Some(inside) => inside_tag(alloc, inverse, inside),
        None => Ok(None),
    }
}
