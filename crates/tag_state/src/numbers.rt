//! Tags that set numbers and switches.

ghost use Rattle.std.specs.Prelude.{◌≡◌, ◌≤◌, true, unwrap_or, IfSome};
ghost use Rattle.ass_num.specs.Limits.{one_16};
ghost use Rattle.event_instants.specs.Instants.{moved as way};
ghost use Rattle.override_tags.specs.Tags.{is_gradual};
ghost use Rattle.tag_state.specs.Properties as table;
ghost use Rattle.tag_state.specs.Steps as rule;

use ass_num::{Milli, hold};
use ass_script::Style;
use event_instants::moved;
use override_tags::{Num, State, whole};

/// The number that a tag gives: what can't be below 0 becomes 0. A size that isn't above 0 is none.
fn given(property: Num, value: Milli) -> Option<Milli>
    ensures { result ≡ table.given property value }
{
    match property {
        Num::Size => { if value > 0 { Some(value) } else { None } }
        Num::ScaleX | Num::ScaleY | Num::Edges | Num::Blur => Some(value.max(0)),
        Num::Border | Num::BorderX | Num::BorderY | Num::Shadow => Some(value.max(0)),
        _ => Some(value),
    }
}

/// The same, where a tag has a number.
fn given_number(property: Num, value: Option<Milli>) -> Option<Milli>
    ensures { result ≡ table.given_number property value }
{
    given(property, value?)
}

/// A number that is set, or moved where there is a weight, to a new one or else to the style's.
fn changed(old: Milli, new: Option<Milli>, styled: Milli, weight: Option<u32>) -> Milli
    requires { IfSome weight (λ w. w ≤ one_16) }
    ensures { result ≡ rule.set_or_moved way old (unwrap_or new styled) weight }
{
    let new = new.unwrap_or(styled);
    match weight {
        None => new,
        Some(weight) => moved(old, new, weight),
    }
}

/// Sets a number that can change gradually, or moves it where there is a weight.
pub(crate) fn set_gradual(
    state: &mut State,
    style: &Style,
    property: Num,
    value: Option<Milli>,
    weight: Option<u32>,
)
    requires gradual { is_gradual property ≡ true }
    requires unit { IfSome weight (λ w. w ≤ one_16) }
    ensures { state.new ≡ rule.numbers_after style.now property value weight state.old }
{
    let new = given_number(property, value);
    match property {
        Num::Size => state.size = changed(state.size, new, style.size, weight),
        Num::ScaleX => state.scale_x = changed(state.scale_x, new, style.scale_x, weight),
        Num::ScaleY => state.scale_y = changed(state.scale_y, new, style.scale_y, weight),
        Num::Spacing => state.spacing = changed(state.spacing, new, style.spacing, weight),
        Num::Angle => state.angle = changed(state.angle, new, style.angle, weight),
        Num::Border => {
            state.border_x = changed(state.border_x, new, style.outline, weight);
            state.border_y = changed(state.border_y, new, style.outline, weight);
        }
        Num::BorderX => state.border_x = changed(state.border_x, new, style.outline, weight),
        Num::BorderY => state.border_y = changed(state.border_y, new, style.outline, weight),
        Num::Shadow => {
            state.shadow_x = changed(state.shadow_x, new, style.shadow, weight);
            state.shadow_y = changed(state.shadow_y, new, style.shadow, weight);
        }
        Num::ShadowX => state.shadow_x = changed(state.shadow_x, new, style.shadow, weight),
        Num::ShadowY => state.shadow_y = changed(state.shadow_y, new, style.shadow, weight),
        Num::Edges => state.edges = changed(state.edges, new, 0, weight),
        Num::Blur => state.blur = changed(state.blur, new, 0, weight),
        _ => {}
    }
}

/// Whether a number is bold: 1, or a weight from 600 on.
fn bold_by(value: Option<Milli>, styled: bool) -> bool
    ensures { result ≡ rule.switch_value table.Bold value styled }
{
    match value {
        None => styled,
        Some(value) => value == 1_000 || value >= 600_000,
    }
}

/// Whether a number is 1.
fn switched(value: Option<Milli>, styled: bool) -> bool
    ensures { result ≡ rule.switch_value table.Italic value styled }
{
    match value {
        None => styled,
        Some(value) => value == 1_000,
    }
}

/// The level of drawings of a number.
fn level_by(value: Option<Milli>) -> u32
    ensures { result ≡ rule.level_said value }
{
    match value {
        None => 0,
        Some(value) => hold(i128::from(whole(value)), 0, 30) as u32,
    }
}

/// Sets the property that a number sets.
pub(crate) fn set_number(state: &mut State, style: &Style, property: Num, value: Option<Milli>)
    ensures { state.new ≡ rule.number_stepped style.now property value state.old }
{
    match property {
        Num::Bold => state.bold = bold_by(value, style.bold),
        Num::Italic => state.italic = switched(value, style.italic),
        Num::Underline => state.underline = switched(value, style.underline),
        Num::Strikeout => state.strikeout = switched(value, style.strikeout),
        Num::Draw => state.draw = level_by(value),
        Num::Offset => state.offset = value.unwrap_or(0),
        Num::Wrap => {}
        _ => set_gradual(state, style, property, value, None),
    }
}
