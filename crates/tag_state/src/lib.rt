//! What tags make of the properties of characters and of the whole event, at an instant.
#![tactic(auto)]

mod choices;
mod colours;
mod fonts;
mod laws;
mod numbers;
mod pen;
mod sheet;
mod state;
mod steps;
mod still;
mod syllables;
mod view;
mod walk;

pub use choices::{Said, has_point, said_of};
pub use laws::looks_back;
pub use override_tags::{EventView, Item, Shown, ShownKind, State, Syllable};
pub use state::{restyled, styled};
pub use steps::{move_by, set_by, transform};
pub use still::is_still;
pub use syllables::next_syllable;
pub use view::{items_of, states_at, view_of};
