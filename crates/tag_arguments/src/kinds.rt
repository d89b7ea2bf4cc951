//! What the names of tags stand for (Aegisub, "ASS override tags").

/// A property that a number sets.
#[derive(Clone, Copy, Debug, PartialEq, Eq, Hash)]
pub enum Num {
    Bold,
    Italic,
    Underline,
    Strikeout,
    Size,
    ScaleX,
    ScaleY,
    Spacing,
    Angle,
    Border,
    BorderX,
    BorderY,
    Shadow,
    ShadowX,
    ShadowY,
    Edges,
    Blur,
    Wrap,
    Draw,
    Offset,
}

/// How a syllable is shown as it is sung: at once, swept from the left, or by its border.
#[derive(Clone, Copy, Debug, PartialEq, Eq, Hash)]
pub enum Sung {
    Jump,
    Sweep,
    Outline,
}

/// What a tag's name says of the tag. Colours are numbered from 1 to 4, alphas too; alpha 0 is that of all four.
#[derive(Clone, Copy, Debug, PartialEq, Eq, Hash)]
pub enum TagName {
    /// A number sets the property.
    Number(Num),
    /// A number without a sign sets the size.
    Size,
    /// 0, 1, 2 or 3 is the wrap style.
    Wrap,
    Colour(u8),
    Alpha(u8),
    FontName,
    Reset,
    /// The alignment by the numeric keypad.
    Align,
    /// The alignment as old scripts number it.
    OldAlign,
    Pos,
    Move,
    Org,
    Fade,
    /// A clip, and whether it hides its inside.
    Clip(bool),
    Transform,
    Karaoke(Sung),
    /// A name that is known and has no effect here.
    Skipped,
}
