//! Pictures with alpha, painted over nothing.
#![tactic(auto)]

mod columns;
mod laws;
mod layers;
mod painting;
mod pixel;
mod tile;
mod tint;

pub use laws::over_is_near;
pub use layers::Layers;
pub use painting::{paint_alpha, paint_alpha_rows};
pub use pixel::{AlphaForm, Pixel};
