//! Where the events of a picture stand: each at its own start, moved clear of those before it in its layer.
#![tactic(auto)]

mod boxes;
mod kept;
mod laws;
mod own;
mod placed;
mod placed_boxes;
mod shift;
mod shift_laws;
mod stand_list;
mod stands;
mod steps;

pub use laws::{one_shift, one_stand};
pub use own::OwnLayout;
pub use placed::{PlacedEvent, placed_events};
pub use shift::least_shift;
pub use shift_laws::one_list_of_shifts;
pub use stand_list::replay;
pub use stands::{Box2, Stand};
