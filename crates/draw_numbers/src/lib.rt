//! The numbers of draws: widths of borders, shadows and blurs, colours, pens, and the bounds of clips.
#![tactic(auto)]

mod clips;
mod colours;
mod pens;
mod products;
mod widths;

pub use clips::clip_bound;
pub use colours::{
    Paint, back_colour, fill_paint, is_swept, lacks_border, outline_colour, plain_paint,
};
pub use pens::{Spot, is_near_frame, spot_at};
pub use widths::{
    NO_OFFSETS, NO_RADII, NO_SOFTNESS, Offsets, Radii, Softness, offsets_of, radii_of, softness_of,
};
