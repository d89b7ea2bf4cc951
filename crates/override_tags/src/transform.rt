//! Transforms.

ghost use Rattle.std.specs.Prelude.{◌≡◌, pos, ◌+ℤ◌, ◌*ℤ◌, ◌++◌, IfOk, OnOk};
ghost use Rattle.std.specs.Option.{option_map, option_to_list};
ghost use Rattle.tag_arguments.specs.Cuts.{bracketed};
ghost use Rattle.override_tags.specs.Tags.{quarters_of, course_of, is_gradual, gradual_of, ReadsKept, AreKept, ReadsCourse, ReadsTransform, BeginsTag};

use crate::cut::{next_tag, split_at_tags};
use crate::single::{read_single, whole};
use crate::tag::{ClipTag, GradualTag, Tag};
use ass_num::{Items, Mem, Milli, div_floor, hold};
use std::alloc::Global;
use tag_arguments::{Num, Numbers, bracketed, number_list, tag_name};

/// What stands before the tags of a transform: its times, and the speed in quarters.
#[derive(Clone, Copy, Debug)]
pub struct Course {
    pub times: Option<(i64, i64)>,
    pub quarters: u32,
}

/// Four times an accel, and half a unit for rounding to the nearest.
fn four_times(accel: Milli) -> i128
    ensures { result ≡ (accel *ℤ pos 4) +ℤ pos 500 }
{
    i128::from(accel) * 4 + 500
}

/// An accel in quarters, to the nearest, held within 1 and 32.
fn quarters(accel: Milli) -> u32
    ensures { result ≡ quarters_of accel }
{
    hold(div_floor(four_times(accel), 1_000), 1, 32) as u32
}

/// Nothing, an accel, two times, or two times and an accel. Without an accel the speed is 4 quarters.
fn course_by(numbers: &[Milli]) -> Option<Course>
    ensures { result ≡ course_of (Some numbers.now) }
{
    match numbers {
        [] => Some(Course {
            times: None,
            quarters: 4,
        }),
        [accel] => Some(Course {
            times: None,
            quarters: quarters(*accel),
        }),
        [t1, t2] => Some(Course {
            times: Some((whole(*t1), whole(*t2))),
            quarters: 4,
        }),
        [t1, t2, accel] => Some(Course {
            times: Some((whole(*t1), whole(*t2))),
            quarters: quarters(*accel),
        }),
        _ => None,
    }
}

/// The course of the numbers before the tags of a transform.
fn course_of(numbers: &Option<Numbers>) -> Option<Course>
    ensures { result ≡ course_of (option_map (λ n. n.items) numbers.now) }
{
    course_by(numbers.as_ref()?.as_slice())
}

/// Whether a property can change gradually.
fn is_gradual(property: Num) -> bool
    ensures { result ≡ is_gradual property }
{
    match property {
        Num::Bold | Num::Italic | Num::Underline | Num::Strikeout => false,
        Num::Wrap | Num::Draw | Num::Offset => false,
        _ => true,
    }
}

/// A tag as a transform keeps it, if it does.
fn gradual_of(tag: &Tag) -> Option<GradualTag>
    ensures { result ≡ gradual_of tag.now }
{
    match tag {
        Tag::Number(property, value) => {
            if is_gradual(*property) {
                Some(GradualTag::Number(*property, *value))
            } else {
                None
            }
        }
        Tag::Colour(which, value) => Some(GradualTag::Colour(*which, *value)),
        Tag::Alpha(which, value) => Some(GradualTag::Alpha(*which, *value)),
        Tag::Clip(ClipTag::Rect(corners, inverse)) => Some(GradualTag::Clip(*corners, *inverse)),
        _ => None,
    }
}

/// The tag of a text behind a `\`, if a transform keeps it.
fn read_kept(alloc: Global, text: &str) -> Mem<Option<GradualTag>>
    ensures { IfOk result (λ tag. ReadsKept text.now tag) }
{
    let Some((name, rest)) = tag_name(text) else {
        return Ok(None);
    };
    match read_single(alloc, name, rest)? {
        Some(tag) => Ok(gradual_of(&tag)),
        None => Ok(None),
    }
}

/// Adds a tag, if there is one.
fn push_kept(tags: &mut Items<GradualTag>, tag: Option<GradualTag>) -> Mem<()>
    ensures { OnOk result (tags.new ≡ tags.old ++ option_to_list tag) }
{
    match tag {
        Some(tag) => tags.push(tag),
        None => Ok(()),
    }
}

/// The tags that a transform keeps, of a text that is empty or begins with a `\`.
fn kept_tags(alloc: Global, text: &str) -> Mem<Items<GradualTag>>
    requires { BeginsTag text.now }
    ensures { IfOk result (λ tags. AreKept text.now tags) }
{
    let mut tags = Items::new(alloc);
    let mut rest = text;
    while let Some((text, others)) = next_tag(rest) {
        let tag = read_kept(alloc, text)?;
        push_kept(&mut tags, tag)?;
        rest = others;
    }
    Ok(tags)
}

/// A transform of a course, and the text of its tags.
fn course_tag(alloc: Global, course: Option<Course>, tags: &str) -> Mem<Option<Tag>>
    requires { BeginsTag tags.now }
    ensures { IfOk result (λ tag. ReadsCourse course tags.now tag) }
{
    match course {
        Some(course) => {
            let tags = kept_tags(alloc, tags)?;
            Ok(Some(Tag::Transform(course.times, course.quarters, tags)))
        }
        None => Ok(None),
    }
}

/// A transform by the text behind its name.
pub fn transform_tag(alloc: Global, rest: &str) -> Mem<Option<Tag>>
    ensures { IfOk result (λ tag. ReadsTransform (bracketed rest.now) tag) }
{
    match bracketed(rest) {
        Some(inside) => {
            let (before, tags) = split_at_tags(inside);
            course_tag(alloc, course_of(&number_list(before, true)), tags)
        }
        None => Ok(None),
    }
}
