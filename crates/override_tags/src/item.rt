//! What a text consists of.

use crate::tag::Tag;

/// A kind of item.
#[derive(Debug, Drop)]
pub enum ItemKind {
    /// A character; a tab is a space.
    Char(char),
    /// `\N`
    HardBreak,
    /// `\n`
    SoftBreak,
    /// `\h`
    HardSpace,
    /// Braces and what stands between them.
    Block,
    /// A tag of the block before it.
    Tag(Tag),
}

/// An item, and the bytes of the text that it takes: from the first on, up to `to`.
#[derive(Debug, Drop)]
pub struct Item {
    pub from: usize,
    pub to: usize,
    pub kind: ItemKind,
}
