//! What tags set on a state, and what a transform moves.

ghost use Rattle.std.specs.Prelude.{◌≡◌, ◌≤◌, ◌++◌, List, ℕ, map, reverse, All};
ghost use Rattle.ass_num.specs.Limits.{one_16};
ghost use Rattle.ass_script.specs.Scripts.{ScriptValue};
ghost use Rattle.override_tags.specs.Ranges.{IsHeldTag, IsGradualTag};
ghost use Rattle.tag_state.specs.Setters.{Effect, Plain, Gradual, style_in_force};
ghost use Rattle.tag_state.specs.States.{IsStateAt};
ghost use Rattle.tag_state.specs.Steps.{IsStepped};

use crate::colours::{set_alpha, set_colour};
use crate::numbers::{set_gradual, set_number};
use ass_script::Style;
use override_tags::{GradualTag, State, Tag};

/// What a tag that stands in no transform sets on a state in a style: its number, switch, colour, alpha or level. The font and
/// the syllable stay (Aegisub, "ASS override tags").
pub fn set_by(state: &mut State, style: &Style, tag: &Tag)
    requires { IsHeldTag tag.now }
    ensures { IsStepped style.now (Plain tag.now) state.old state.new }
{
    match tag {
        Tag::Number(property, value) => set_number(state, style, *property, *value),
        Tag::Colour(which, value) => set_colour(state, style, *which, *value, None),
        Tag::Alpha(which, value) => set_alpha(state, style, *which, *value, None),
        _ => {}
    }
}

/// How far a tag of a transform of a weight, in 65,536ths, moves the state in a style.
pub fn move_by(state: &mut State, style: &Style, tag: GradualTag, weight: u32)
    requires held { IsGradualTag tag }
    requires unit { weight ≤ one_16 }
    ensures { IsStepped style.now (Gradual weight tag) state.old state.new }
{
    match tag {
        GradualTag::Number(property, value) => {
            set_gradual(state, style, property, value, Some(weight));
        }
        GradualTag::Colour(which, value) => set_colour(state, style, which, value, Some(weight)),
        GradualTag::Alpha(which, value) => set_alpha(state, style, which, value, Some(weight)),
        GradualTag::Clip(_, _) => {}
    }
}

/// What a transform of a weight, in 65,536ths, does to the state in the style in force (Aegisub, "Transform").
pub fn transform(state: &mut State, style: &Style, tags: &[GradualTag], weight: u32)
    requires held { All IsGradualTag tags.now }
    requires unit { weight ≤ one_16 }
    ensures { (script : ScriptValue) (own : List ℕ) (names : List (List ℕ)) (before : List Effect) → style.now ≡ style_in_force script own before
        → IsStateAt script own names before state.old → IsStateAt script own names (reverse (map (Gradual weight) tags.now) ++ before) state.new }
{
    for tag in tags {
        move_by(state, style, *tag, weight);
    }
}
