//! The renderer: frames for many threads, each the picture of one history of a track, with masks from shared caches. docs/HEADLINE.md
//! says what is promised of a frame.
#![tactic(auto)]

mod behind;
mod calls;
mod frames;
mod images;
mod keeping;
pub mod laws;
mod owning;
mod painting;
mod passes;
mod readied;
mod releasing;
mod renderer;
mod rendering;
mod sameness;
mod soon;
mod trying;
mod untold;
mod warming;
mod within;

pub use frames::{Frame, FrameImage, FrameStencil};
pub use painting::{paint, paint_alpha_bands, paint_bands};
pub use passes::RenderPass;
pub use renderer::Renderer;
pub use track_history::FromRefusal;
pub use trying::{Again, TryRefusal};
