//! What an event shows at an instant: its states and what is shown in them.

use crate::tag::ClipTag;
use ass_num::{Items, Milli, Path, Rgba, Text};
use tag_arguments::Sung;

/// A syllable: how it is sung, between which milliseconds of the event, and its place among the syllables.
#[derive(Clone, Copy, Debug, PartialEq, Eq, Hash)]
pub struct Syllable {
    pub kind: Sung,
    pub begin: i64,
    pub end: i64,
    pub index: u32,
}

/// The properties of a character. Lengths and per cents are in thousandths.
#[derive(Clone, Copy, Debug, PartialEq, Eq, Hash)]
pub struct State {
    /// The number of its font's name among those of the view.
    pub font: u32,
    pub size: Milli,
    /// Primary, secondary, outline and back colour.
    pub colours: [Rgba; 4],
    pub bold: bool,
    pub italic: bool,
    pub underline: bool,
    pub strikeout: bool,
    pub scale_x: Milli,
    pub scale_y: Milli,
    pub spacing: Milli,
    /// Counterclockwise, in thousandths of a degree.
    pub angle: Milli,
    /// 1 for a border, 3 for a box.
    pub border_style: u8,
    pub border_x: Milli,
    pub border_y: Milli,
    pub shadow_x: Milli,
    pub shadow_y: Milli,
    /// Passes of softening, in thousandths.
    pub edges: Milli,
    pub blur: Milli,
    /// The level of drawings from 0 to 30; 0 is text.
    pub draw: u32,
    /// How far drawings are moved down.
    pub offset: Milli,
    pub sung: Option<Syllable>,
}

/// What is shown.
#[derive(Clone, Debug, PartialEq, Eq, Hash, Drop)]
pub enum ShownKind {
    Char(char),
    Drawing(Path),
    /// A hard break.
    Hard,
    /// A soft break, which is a space or a break by the wrap style.
    Soft,
}

/// What is shown, and the number of its state.
#[derive(Clone, Debug, PartialEq, Eq, Hash, Drop)]
pub struct Shown {
    pub kind: ShownKind,
    pub state: u32,
}

/// What an event shows at an instant. The last state is the one after the whole text.
#[derive(Debug, Drop)]
pub struct EventView {
    /// The names of the fonts, each once.
    pub names: Items<Text>,
    pub states: Items<State>,
    pub items: Items<Shown>,
    /// The alignment from 1 to 9 by the numeric keypad.
    pub align: u8,
    /// The wrap style from 0 to 3.
    pub wrap: u8,
    pub pos: Option<(Milli, Milli)>,
    pub org: Option<(Milli, Milli)>,
    /// How far the event is faded out: 0 not at all, 255 wholly.
    pub fade: u8,
    pub clip: Option<ClipTag>,
}
