//! Tags that set colours and alphas.

ghost use Rattle.std.specs.Prelude.{◌≡◌, ◌-◌, ◌<◌, ◌≤◌, [], ◌∷◌, length, slice_set, IfSome};
ghost use Rattle.ass_num.specs.Limits.{one_16};
ghost use Rattle.tag_state.specs.Properties.{colour_at, moved_byte};
ghost use Rattle.tag_state.specs.Steps as rule;

use ass_num::{Rgba, colour_of};
use ass_script::Style;
use event_instants::moved;
use override_tags::State;

/// A byte that is set, or moved where there is a weight.
fn changed(old: u8, new: u8, weight: Option<u32>) -> u8
    requires { IfSome weight (λ w. w ≤ one_16) }
    ensures { result ≡ rule.set_or_moved moved_byte old new weight }
{
    match weight {
        None => new,
        Some(weight) => moved(i64::from(old), i64::from(new), weight) as u8,
    }
}

/// A colour of another red, green and blue.
fn recoloured(old: Rgba, new: Rgba, weight: Option<u32>) -> Rgba
    requires { IfSome weight (λ w. w ≤ one_16) }
    ensures { result ≡ rule.recoloured old new weight }
{
    Rgba {
        r: changed(old.r, new.r, weight),
        g: changed(old.g, new.g, weight),
        b: changed(old.b, new.b, weight),
        a: old.a,
    }
}

/// Sets one of the four colours, which are numbered from 1, and leaves its alpha.
pub(crate) fn set_colour(
    state: &mut State,
    style: &Style,
    which: u8,
    value: Option<u32>,
    weight: Option<u32>,
)
    requires some { 1 ≤ which }
    requires four { which ≤ 4 }
    requires unit { IfSome weight (λ w. w ≤ one_16) }
    ensures four { length state.old.colours ≡ 4 }
    ensures written { state.new ≡ record state.old {
      colours = slice_set state.old.colours (which - 1)
          (rule.colour_after style.now (which - 1) value weight (colour_at state.old.colours (which - 1)));
    } }
{
    let place = usize::from(which - 1);
    let new = match value {
        Some(value) => colour_of(value),
        None => style.colours[place],
    };
    state.colours[place] = recoloured(state.colours[place], new, weight);
}

/// The colour at a place behind a tag that sets the alpha of one colour, or of all by 0.
fn alpha_at(
    state: &State,
    style: &Style,
    place: u8,
    which: u8,
    value: Option<u8>,
    weight: Option<u32>,
) -> Rgba
    requires four { place < 4 }
    requires unit { IfSome weight (λ w. w ≤ one_16) }
    ensures { result ≡ rule.alpha_after style.now place which value weight (colour_at state.now.colours place) }
{
    let old = state.colours[usize::from(place)];
    if which != 0 && which != place + 1 {
        return old;
    }
    let new = value.unwrap_or(style.colours[usize::from(place)].a);
    Rgba {
        r: old.r,
        g: old.g,
        b: old.b,
        a: changed(old.a, new, weight),
    }
}

/// Sets the alpha of one of the four colours, which are numbered from 1, or of all by 0.
pub(crate) fn set_alpha(
    state: &mut State,
    style: &Style,
    which: u8,
    value: Option<u8>,
    weight: Option<u32>,
)
    requires unit { IfSome weight (λ w. w ≤ one_16) }
    ensures { let old = state.old.colours in state.new ≡ record state.old {
      colours =
          rule.alpha_after style.now 0 which value weight (colour_at old 0) ∷
          (rule.alpha_after style.now 1 which value weight (colour_at old 1) ∷
          (rule.alpha_after style.now 2 which value weight (colour_at old 2) ∷
          (rule.alpha_after style.now 3 which value weight (colour_at old 3) ∷ [])));
    } }
{
    let first = alpha_at(state, style, 0, which, value, weight);
    let second = alpha_at(state, style, 1, which, value, weight);
    let third = alpha_at(state, style, 2, which, value, weight);
    let fourth = alpha_at(state, style, 3, which, value, weight);
    state.colours = [first, second, third, fourth];
}
