//! Styles.

ghost use Rattle.std.specs.Prelude.{◌≡◌, IfOk};
ghost use Rattle.ass_script.specs.Ranges.{IsStyle};
ghost use Rattle.ass_script.specs.Styles.{built_in_style};

use ass_num::{Mem, Milli, Rgba, Text, colour_of};
use std::alloc::Global;

/// A style (ASS specification, "Style lines, [v4+ Styles] section"). Sizes, widths and distances are in thousandths
/// of a script pixel.
#[derive(Clone, Debug, PartialEq, Eq, Hash, Drop)]
pub struct Style {
    pub name: Text,
    /// The name of its font; an empty one names none.
    pub font: Text,
    /// The font's height, 0 or more.
    pub size: Milli,
    /// The primary, the secondary, the outline and the back colour.
    pub colours: [Rgba; 4],
    pub bold: bool,
    pub italic: bool,
    pub underline: bool,
    pub strikeout: bool,
    /// The width in thousandths of a per cent, 0 or more.
    pub scale_x: Milli,
    /// The height, likewise.
    pub scale_y: Milli,
    /// What is added to the advance of each character.
    pub spacing: Milli,
    /// The turn, counterclockwise, in thousandths of a degree.
    pub angle: Milli,
    /// 1 for an outline and a shadow, 3 for a box.
    pub border_style: u8,
    /// The width of the outline, 0 or more.
    pub outline: Milli,
    /// How far the shadow lies to the right and below, 0 or more.
    pub shadow: Milli,
    /// 1 to 9, as the keys lie on a number pad.
    pub alignment: u8,
    /// The margins in script pixels.
    pub margin_l: i32,
    pub margin_r: i32,
    pub margin_v: i32,
}

/// The style that counts where a script has none of a name and none named `Default`.
pub fn built_in_style(alloc: Global) -> Mem<Style>
    ensures style { IfOk result (λ style. style ≡ built_in_style) }
    ensures range { IfOk result IsStyle }
{
    Ok(Style {
        name: Text::copy(alloc, "Default")?,
        font: Text::copy(alloc, "")?,
        size: 18_000,
        colours: [
            colour_of(0x00ff_ffff),
            colour_of(0x0000_ffff),
            colour_of(0),
            colour_of(0x8000_0000),
        ],
        bold: false,
        italic: false,
        underline: false,
        strikeout: false,
        scale_x: 100_000,
        scale_y: 100_000,
        spacing: 0,
        angle: 0,
        border_style: 1,
        outline: 2_000,
        shadow: 2_000,
        alignment: 2,
        margin_l: 20,
        margin_r: 20,
        margin_v: 20,
    })
}
