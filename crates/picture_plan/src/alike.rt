//! Whether what an event shows at two instants is laid out alike.

ghost use Rattle.std.specs.Prelude.{◌≡◌, IsTrue};
ghost use Rattle.picture_plan.specs.Alike.{AreLaidAlike};

use ass_num::{Items, Text};
use override_tags::{EventView, Shown, State};
use text_layout::is_typeset;

/// Whether names of fonts are the same.
fn have_same_names(a: &Items<Text>, b: &Items<Text>) -> bool
    ensures { IsTrue result → a.now ≡ b.now }
{
    *a == *b
}

/// Whether states are the same.
fn have_same_states(a: &Items<State>, b: &Items<State>) -> bool
    ensures { IsTrue result → a.now ≡ b.now }
{
    *a == *b
}

/// Whether the same is shown, in states of the same numbers.
fn have_same_items(a: &Items<Shown>, b: &Items<Shown>) -> bool
    ensures { IsTrue result → a.now ≡ b.now }
{
    *a == *b
}

/// Whether views are laid out alike: layout looks at nothing else of them.
pub(crate) fn are_laid_alike(a: &EventView, b: &EventView) -> bool
    ensures { IsTrue result → AreLaidAlike a.now b.now }
{
    a.align == b.align
        && a.wrap == b.wrap
        && is_typeset(a) == is_typeset(b)
        && have_same_items(&a.items, &b.items)
        && have_same_states(&a.states, &b.states)
        && have_same_names(&a.names, &b.names)
}
