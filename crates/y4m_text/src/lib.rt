//! Pictures as frames of YUV4MPEG2 streams.
#![tactic(auto)]

mod colour;
mod divisor;
mod form;
mod frame;

pub use form::{Sampling, VideoChoice, VideoForm, form_for};
pub use frame::{frame_bytes_in, stream_head};
