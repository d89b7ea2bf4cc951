//! Tags that aren't transforms.

ghost use Rattle.std.specs.Prelude.{◌≡◌, ◌∷◌, [], IfOk};
ghost use Rattle.std.specs.Option.{option_map};
ghost use Rattle.override_tags.specs.declared.tag.Tag.TheVariants.{Number, Colour, Alpha, Move, Fade};
ghost use Rattle.override_tags.specs.Singles.{whole, exact, is_wrap_style, wrap_tag, key_tag, align_of, key_of_old, old_align_of, karaoke_of, pos_of, org_of};
ghost use Rattle.override_tags.specs.Singles.{move_of, fade_of, numbered_of, ReadsNumbered, ReadsSingle};

use crate::clip::clip_tag;
use crate::tag::Tag;
use ass_num::{Mem, Milli, Text, div_floor};
use std::alloc::Global;
use tag_arguments::{
    Num, Numbers, Sung, TagName, bracketed_numbers, plain_argument, read_alpha_argument,
    read_colour_argument, read_front, read_number, read_unsigned,
};

/// Thousandths as a whole number, rounded down.
pub fn whole(value: Milli) -> i64
    ensures { result ≡ whole value }
{
    div_floor(i128::from(value), 1_000) as i64
}

/// The whole number that thousandths are, if they are one.
fn exact(value: Milli) -> Option<i64>
    ensures { result ≡ exact value }
{
    let number = whole(value);
    if i128::from(number) * 1_000 == i128::from(value) {
        Some(number)
    } else {
        None
    }
}

fn number_tag(property: Num, value: Option<Option<Milli>>) -> Option<Tag>
    ensures { result ≡ option_map (Number property) value }
{
    Some(Tag::Number(property, value?))
}

fn is_wrap_style(value: Milli) -> bool
    ensures { result ≡ is_wrap_style value }
{
    value == 0 || value == 1_000 || value == 2_000 || value == 3_000
}

fn wrap_tag(value: Option<Option<Milli>>) -> Option<Tag>
    ensures { result ≡ wrap_tag value }
{
    match value {
        None => None,
        Some(None) => Some(Tag::Number(Num::Wrap, None)),
        Some(Some(value)) => {
            if is_wrap_style(value) {
                Some(Tag::Number(Num::Wrap, Some(value)))
            } else {
                None
            }
        }
    }
}

fn colour_tag(which: u8, value: Option<Option<u32>>) -> Option<Tag>
    ensures { result ≡ option_map (Colour which) value }
{
    Some(Tag::Colour(which, value?))
}

fn alpha_tag(which: u8, value: Option<Option<u8>>) -> Option<Tag>
    ensures { result ≡ option_map (Alpha which) value }
{
    Some(Tag::Alpha(which, value?))
}

/// The key of a numeric keypad by its number, if that is 1 to 9.
fn key_tag(number: i64) -> Option<Tag>
    ensures { result ≡ key_tag number }
{
    if 1 <= number && number <= 9 {
        Some(Tag::Align(number as u8))
    } else {
        None
    }
}

/// A whole number from 1 to 9, as the keys of a numeric keypad lie.
fn align_tag(value: Option<Milli>) -> Option<Tag>
    ensures { result ≡ align_of value }
{
    key_tag(exact(value?)?)
}

/// The key by the number that old scripts have: 1 to 3 at the bottom, 5 to 7 at the top and 9 to 11 in the middle; else 0.
fn key_of_old(number: i64) -> i64
    ensures { result ≡ key_of_old number }
{
    if 1 <= number && number <= 3 {
        number
    } else if 5 <= number && number <= 7 {
        number + 2
    } else if 9 <= number && number <= 11 {
        number - 5
    } else {
        0
    }
}

/// A whole number that old scripts have for an alignment.
fn old_align_tag(value: Option<Milli>) -> Option<Tag>
    ensures { result ≡ old_align_of value }
{
    key_tag(key_of_old(exact(value?)?))
}

fn karaoke_tag(kind: Sung, value: Option<Milli>) -> Option<Tag>
    ensures { result ≡ karaoke_of kind value }
{
    let length = div_floor(i128::from(value?), 100) as i64;
    Some(Tag::Karaoke(kind, length.max(0)))
}

fn pos_tag(numbers: &[Milli]) -> Option<Tag>
    ensures { result ≡ pos_of (Some numbers.now) }
{
    match numbers {
        [x, y] => Some(Tag::Pos(*x, *y)),
        _ => None,
    }
}

fn org_tag(numbers: &[Milli]) -> Option<Tag>
    ensures { result ≡ org_of (Some numbers.now) }
{
    match numbers {
        [x, y] => Some(Tag::Org(*x, *y)),
        _ => None,
    }
}

/// A movement between two times.
fn timed_move(path: [Milli; 4], t1: Milli, t2: Milli) -> Tag
    ensures { result ≡ Move path (whole t1) (whole t2) }
{
    Tag::Move(path, whole(t1), whole(t2))
}

fn move_tag(numbers: &[Milli]) -> Option<Tag>
    ensures { result ≡ move_of (Some numbers.now) }
{
    match numbers {
        [x1, y1, x2, y2] => Some(Tag::Move([*x1, *y1, *x2, *y2], 0, 0)),
        [x1, y1, x2, y2, t1, t2] => { Some(timed_move([*x1, *y1, *x2, *y2], *t1, *t2)) }
        _ => None,
    }
}

/// A fade by three alphas and four times.
fn long_fade(a1: Milli, a2: Milli, a3: Milli, t1: Milli, t2: Milli, t3: Milli, t4: Milli) -> Tag
    ensures { result ≡ Fade (whole a1 ∷ (whole a2 ∷ (whole a3 ∷ (whole t1 ∷ (whole t2 ∷ (whole t3 ∷ (whole t4 ∷ []))))))) }
{
    Tag::Fade([
        whole(a1),
        whole(a2),
        whole(a3),
        whole(t1),
        whole(t2),
        whole(t3),
        whole(t4),
    ])
}

fn fade_tag(numbers: &[Milli]) -> Option<Tag>
    ensures { result ≡ fade_of (Some numbers.now) }
{
    match numbers {
        [t1, t2] => Some(Tag::Fad(whole(*t1), whole(*t2))),
        [a1, a2, a3, t1, t2, t3, t4] => { Some(long_fade(*a1, *a2, *a3, *t1, *t2, *t3, *t4)) }
        _ => None,
    }
}

/// The tag of numbers in brackets.
fn numbered(name: TagName, numbers: &Numbers) -> Option<Tag>
    ensures { result ≡ numbered_of name (Some numbers.now.items) }
{
    match name {
        TagName::Pos => pos_tag(numbers.as_slice()),
        TagName::Move => move_tag(numbers.as_slice()),
        TagName::Org => org_tag(numbers.as_slice()),
        TagName::Fade => fade_tag(numbers.as_slice()),
        _ => None,
    }
}

/// The tag of a name by its numbers in brackets.
fn bracketed_tag(name: TagName, rest: &str) -> Option<Tag>
    ensures { ReadsNumbered name rest.now result }
{
    numbered(name, &bracketed_numbers(rest)?)
}

/// The tag of a name and the text behind it, if it isn't a transform. There is none where the text
/// isn't an argument of the name.
pub fn read_single(alloc: Global, name: TagName, rest: &str) -> Mem<Option<Tag>>
    ensures { IfOk result (λ tag. ReadsSingle name rest.now tag) }
{
    let argument = plain_argument(rest);
    match name {
        TagName::Number(property) => Ok(number_tag(property, read_number(argument))),
        TagName::Size => Ok(number_tag(Num::Size, read_unsigned(argument))),
        TagName::Wrap => Ok(wrap_tag(read_number(argument))),
        TagName::Colour(which) => Ok(colour_tag(which, read_colour_argument(argument))),
        TagName::Alpha(which) => Ok(alpha_tag(which, read_alpha_argument(argument))),
        TagName::FontName => Ok(Some(Tag::FontName(Text::copy(alloc, argument)?))),
        TagName::Reset => Ok(Some(Tag::Reset(Text::copy(alloc, argument)?))),
        TagName::Align => Ok(align_tag(read_front(argument))),
        TagName::OldAlign => Ok(old_align_tag(read_front(argument))),
        TagName::Karaoke(kind) => Ok(karaoke_tag(kind, read_front(argument))),
        TagName::Pos => Ok(bracketed_tag(TagName::Pos, rest)),
        TagName::Move => Ok(bracketed_tag(TagName::Move, rest)),
        TagName::Org => Ok(bracketed_tag(TagName::Org, rest)),
        TagName::Fade => Ok(bracketed_tag(TagName::Fade, rest)),
        TagName::Clip(inverse) => clip_tag(alloc, rest, inverse),
        TagName::Transform | TagName::Skipped => Ok(None),
    }
}
