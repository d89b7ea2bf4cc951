//! The table of names.

ghost use Rattle.std.specs.Prelude.{◌≡◌, ◌∷◌, [], Some, map};
ghost use Rattle.std.specs.Option.{option_map};
ghost use Rattle.tag_arguments.specs.Names.{longer_found, longest_row, longest_name, tag_name, tag_names, rows_of};

use crate::kinds::{Num, Sung, TagName};
use ass_num::text_blanks::past_blanks;

/// A spelling, and what it stands for.
type NameRow = (&'static str, TagName);

// The table of names, cut by the first bytes of the spellings; each piece is in the order of docs/TAGS.md.

const B_NAMES: [NameRow; 4] = [
    ("b", TagName::Number(Num::Bold)),
    ("bord", TagName::Number(Num::Border)),
    ("be", TagName::Number(Num::Edges)),
    ("blur", TagName::Number(Num::Blur)),
];

const I_NAMES: [NameRow; 2] = [
    ("i", TagName::Number(Num::Italic)),
    ("iclip", TagName::Clip(true)),
];

const S_NAMES: [NameRow; 2] = [
    ("s", TagName::Number(Num::Strikeout)),
    ("shad", TagName::Number(Num::Shadow)),
];

const F_NAMES: [NameRow; 15] = [
    ("fs", TagName::Size),
    ("fscx", TagName::Number(Num::ScaleX)),
    ("fscy", TagName::Number(Num::ScaleY)),
    ("fsp", TagName::Number(Num::Spacing)),
    ("frz", TagName::Number(Num::Angle)),
    ("fr", TagName::Number(Num::Angle)),
    ("fn", TagName::FontName),
    ("fad", TagName::Fade),
    ("fade", TagName::Fade),
    ("frx", TagName::Skipped),
    ("fry", TagName::Skipped),
    ("fax", TagName::Skipped),
    ("fay", TagName::Skipped),
    ("fe", TagName::Skipped),
    ("fsc", TagName::Skipped),
];

const X_NAMES: [NameRow; 2] = [
    ("xbord", TagName::Number(Num::BorderX)),
    ("xshad", TagName::Number(Num::ShadowX)),
];

const Y_NAMES: [NameRow; 2] = [
    ("ybord", TagName::Number(Num::BorderY)),
    ("yshad", TagName::Number(Num::ShadowY)),
];

const P_NAMES: [NameRow; 3] = [
    ("p", TagName::Number(Num::Draw)),
    ("pbo", TagName::Number(Num::Offset)),
    ("pos", TagName::Pos),
];

const C_NAMES: [NameRow; 2] = [("c", TagName::Colour(1)), ("clip", TagName::Clip(false))];

const ONE_NAMES: [NameRow; 2] = [("1c", TagName::Colour(1)), ("1a", TagName::Alpha(1))];

const TWO_NAMES: [NameRow; 2] = [("2c", TagName::Colour(2)), ("2a", TagName::Alpha(2))];

const THREE_NAMES: [NameRow; 2] = [("3c", TagName::Colour(3)), ("3a", TagName::Alpha(3))];

const FOUR_NAMES: [NameRow; 2] = [("4c", TagName::Colour(4)), ("4a", TagName::Alpha(4))];

const A_NAMES: [NameRow; 3] = [
    ("alpha", TagName::Alpha(0)),
    ("an", TagName::Align),
    ("a", TagName::OldAlign),
];

const K_NAMES: [NameRow; 4] = [
    ("k", TagName::Karaoke(Sung::Jump)),
    ("kf", TagName::Karaoke(Sung::Sweep)),
    ("ko", TagName::Karaoke(Sung::Outline)),
    ("kt", TagName::Skipped),
];

/// The rows of the table whose spelling begins with a byte.
fn rows_of(first: u8) -> &'static [NameRow]
    ensures { map (λ row. (row.0.now, row.1)) result.now ≡ rows_of first }
{
    match first {
        b'b' => &B_NAMES,
        b'i' => &I_NAMES,
        b'u' => &[("u", TagName::Number(Num::Underline))],
        b's' => &S_NAMES,
        b'f' => &F_NAMES,
        b'x' => &X_NAMES,
        b'y' => &Y_NAMES,
        b'p' => &P_NAMES,
        b'q' => &[("q", TagName::Wrap)],
        b'c' => &C_NAMES,
        b'1' => &ONE_NAMES,
        b'2' => &TWO_NAMES,
        b'3' => &THREE_NAMES,
        b'4' => &FOUR_NAMES,
        b'a' => &A_NAMES,
        b'r' => &[("r", TagName::Reset)],
        b'k' => &K_NAMES,
        b'K' => &[("K", TagName::Karaoke(Sung::Sweep))],
        b'o' => &[("org", TagName::Org)],
        b'm' => &[("move", TagName::Move)],
        b't' => &[("t", TagName::Transform)],
        _ => &[],
    }
}

/// Of two rows the one with the longer spelling; there may be no first one.
fn longer_found(longest: Option<NameRow>, row: NameRow) -> NameRow
    ensures { Some (result.0.now, result.1) ≡ longer_found (option_map (λ row. (row.0.now, row.1)) longest.entry) (Some (row.entry.0.now, row.entry.1)) }
{
    match longest {
        Some(other) => {
            if other.0.len() < row.0.len() {
                row
            } else {
                other
            }
        }
        None => row,
    }
}

/// Of the rows whose spelling the text begins with, the one with the longest spelling.
fn longest_row(text: &str, rows: &[NameRow]) -> Option<NameRow>
    ensures { option_map (λ row. (row.0.now, row.1)) result ≡ longest_row (map (λ row. (row.0.now, row.1)) rows.now) text.now }
{
    let mut longest = None;
    for row in rows {
        if text.starts_with(row.0) {
            longest = Some(longer_found(longest, *row));
        }
    }
    longest
}

/// Of the rows of the whole table whose spelling the text begins with, the one with the longest spelling. Only those with the text's first byte are tried.
fn table_row(text: &str) -> Option<NameRow>
    ensures { option_map (λ row. (row.0.now, row.1)) result ≡ longest_row tag_names text.now }
{
    match text.as_bytes() {
        [first, ..] => longest_row(text, rows_of(*first)),
        [] => None,
    }
}

/// The longest name that the text begins with: what it stands for, and the text behind it.
fn longest_name(text: &str) -> Option<(TagName, &str)>
    ensures { option_map (λ found. (found.0, found.1.now)) result ≡ longest_name text.now }
{
    let (spelling, name) = table_row(text)?;
    Some((name, text.strip_prefix(spelling)?))
}

/// What the text of a tag behind its `\` says first: blanks, and then a name. With what the name stands for comes the text behind it.
pub fn tag_name(text: &str) -> Option<(TagName, &str)>
    ensures { option_map (λ found. (found.0, found.1.now)) result ≡ tag_name text.now }
{
    longest_name(past_blanks(text))
}
