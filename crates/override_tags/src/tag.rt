//! Override tags with their arguments.

use ass_num::{Items, Milli, Path, Text};
use tag_arguments::{Num, Sung};

/// A clip (Aegisub tag reference, "Clip"). The last flag is true where it hides its inside, as `\iclip` does.
#[derive(Clone, Debug, PartialEq, Eq, Hash, Drop)]
pub enum ClipTag {
    /// Left, top, right and bottom in thousandths of a script pixel.
    Rect([Milli; 4], bool),
    /// A drawing, and its scale from 1 to 30.
    Drawn(Path, u32, bool),
}

/// A tag that takes effect gradually, as a transform keeps it. An argument that is none was empty and restores what the style says.
#[derive(Clone, Copy, Debug, PartialEq, Eq)]
pub enum GradualTag {
    /// A property and its number in thousandths, as it was read.
    Number(Num, Option<Milli>),
    /// A colour by its number from 1 to 4.
    Colour(u8, Option<u32>),
    /// An alpha by the number of its colour, or that of all four by 0.
    Alpha(u8, Option<u8>),
    /// A clip by four numbers, and whether it hides its inside.
    Clip([Milli; 4], bool),
}

/// An override tag (Aegisub tag reference). An argument that is none was empty and restores what the style says.
#[derive(Debug, Drop)]
pub enum Tag {
    /// A property and its number in thousandths, as it was read.
    Number(Num, Option<Milli>),
    /// A colour by its number from 1 to 4: primary, secondary, outline, back. From the top byte on alpha, blue, green, red.
    Colour(u8, Option<u32>),
    /// An alpha by the number of its colour, or that of all four by 0.
    Alpha(u8, Option<u8>),
    FontName(Text),
    /// The name of a style, or nothing for the event's own.
    Reset(Text),
    /// The alignment from 1 to 9 by the numeric keypad.
    Align(u8),
    Pos(Milli, Milli),
    /// From the first point to the second, between two times in milliseconds; both are 0 where none were given.
    Move([Milli; 4], i64, i64),
    Org(Milli, Milli),
    /// How long it fades in and out, in milliseconds.
    Fad(i64, i64),
    /// Three alphas, and four times in milliseconds.
    Fade([i64; 7]),
    Clip(ClipTag),
    /// The length of a syllable in milliseconds.
    Karaoke(Sung, i64),
    /// Two times in milliseconds or none, the speed in quarters, and the tags that take effect gradually.
    Transform(Option<(i64, i64)>, u32, Items<GradualTag>),
}
