//! The state of a style.

ghost use Rattle.std.specs.Prelude.{◌≡◌};
ghost use Rattle.tag_state.specs.Steps.{styled_state, restyled_state};

use ass_script::Style;
use override_tags::State;

/// The state of a style whose font has this number, before any tag.
pub fn styled(style: &Style, font: u32) -> State
    ensures { result ≡ styled_state style.now font }
{
    State {
        font,
        size: style.size,
        colours: style.colours,
        bold: style.bold,
        italic: style.italic,
        underline: style.underline,
        strikeout: style.strikeout,
        scale_x: style.scale_x,
        scale_y: style.scale_y,
        spacing: style.spacing,
        angle: style.angle,
        border_style: style.border_style,
        border_x: style.outline,
        border_y: style.outline,
        shadow_x: style.shadow,
        shadow_y: style.shadow,
        edges: 0,
        blur: 0,
        draw: 0,
        offset: 0,
        sung: None,
    }
}

/// The state behind a reset to a style. The level and the shift of drawings and the syllable stay.
pub fn restyled(state: &State, style: &Style, font: u32) -> State
    ensures { result ≡ restyled_state state.now style.now font }
{
    State {
        draw: state.draw,
        offset: state.offset,
        sung: state.sung,
        ..styled(style, font)
    }
}
