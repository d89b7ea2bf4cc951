//! What a frame is to a script: where the video's picture stands in it, what is known of the video, and by how much each kind of length
//! of the script is stretched.
#![tactic(auto)]

mod laws;
mod letters;
mod ranges;
mod scales;
mod sides;
mod view;

pub use laws::scales_of_a_size;
pub use letters::magnified;
pub use ranges::is_frame_view;
pub use scales::{Ratio, Ratios, Scales, scales_of};
pub use view::{FrameView, LetterWidth, PixelAspect, PixelRect};
