//! Frames: the images of a picture, with leases of their masks.

use ass_num::{Items, Size};
use blend::{Image, Stencil};
use cache_kinds::CompositeMade;
use mask_caches::Lease;

/// An image of a frame, with leases of its mask and of that of its drawn clip.
pub type FrameImage = Image<Lease<CompositeMade>>;

/// Where an image of a frame shows, with a lease of the mask of a drawn clip.
pub type FrameStencil = Stencil<Lease<CompositeMade>>;

/// What a track shows at an instant. It must be released.
pub struct Frame {
    /// How many entries of the track's history it shows.
    pub n: usize,
    /// The instant, in milliseconds.
    pub t: i64,
    pub size: Size,
    /// The images, the lowest first.
    pub images: Items<FrameImage>,
}
