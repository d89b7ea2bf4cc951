//! The images of frames.

ghost use Rattle.std.specs.Prelude.{◌≤◌, IfOk};
ghost use Rattle.ass_num.specs.Limits.{IsFrameSize};
ghost use Rattle.run_words.specs.declared.job.FrameFormat.TheVariants.{Pam, Ppm};
ghost use Rattle.run_words.specs.declared.job.ImageForm.TheVariants.{Image, Video};
ghost use Rattle.play_workers.specs.FrameImages.{IsImageOfFrame};

use alpha_canvas::AlphaForm;
use ass_num::Mem;
use pam_text::pam_bytes_in;
use ppm_text::ppm_bytes_in;
use renderer::{Frame, paint_alpha_bands, paint_bands};
use run_words::{FrameFormat, ImageForm};
use std::alloc::Global;
use std::thread::Threads;
use y4m_text::{VideoForm, frame_bytes_in};

/// The picture of a frame as a portable pixmap, in the memory of a buffer.
fn pixmap_of<R: Threads + Sync>(
    rt: &R,
    alloc: Global,
    frame: &Frame,
    bands: u32,
    buffer: Vec<u8>,
) -> Mem<Vec<u8>>
    requires size { IsFrameSize frame.now.size }
    requires some { 1 ≤ bands }
    ensures { IfOk result (λ image. IsImageOfFrame (Image Ppm) frame.now image.items) }
{
    let canvas = paint_bands(rt, alloc, frame, bands)?;
    ppm_bytes_in(
        alloc,
        buffer,
        &frame.size,
        canvas.pixels(),
        frame.t,
        frame.n,
    )
}

/// The picture of a frame as a portable arbitrary map with straight alpha, in the memory of a buffer.
fn map_of<R: Threads + Sync>(
    rt: &R,
    alloc: Global,
    frame: &Frame,
    bands: u32,
    buffer: Vec<u8>,
) -> Mem<Vec<u8>>
    requires size { IsFrameSize frame.now.size }
    requires some { 1 ≤ bands }
    ensures { IfOk result (λ image. IsImageOfFrame (Image Pam) frame.now image.items) }
{
    let pixels = paint_alpha_bands(rt, frame, AlphaForm::Straight, bands, Vec::new(alloc))?;
    pam_bytes_in(
        alloc,
        buffer,
        &frame.size,
        pixels.as_slice(),
        frame.t,
        frame.n,
    )
}

/// The picture of a frame as a frame of a video, in the memory of a buffer.
fn video_frame_of<R: Threads + Sync>(
    rt: &R,
    alloc: Global,
    frame: &Frame,
    form: VideoForm,
    bands: u32,
    buffer: Vec<u8>,
) -> Mem<Vec<u8>>
    requires size { IsFrameSize frame.now.size }
    requires some { 1 ≤ bands }
    ensures { IfOk result (λ image. IsImageOfFrame (Video form) frame.now image.items) }
{
    let canvas = paint_bands(rt, alloc, frame, bands)?;
    frame_bytes_in(buffer, &frame.size, canvas.pixels(), form)
}

/// The picture of a frame in a format, in the memory of a buffer.
fn image_as<R: Threads + Sync>(
    rt: &R,
    alloc: Global,
    frame: &Frame,
    format: FrameFormat,
    bands: u32,
    buffer: Vec<u8>,
) -> Mem<Vec<u8>>
    requires size { IsFrameSize frame.now.size }
    requires some { 1 ≤ bands }
    ensures { IfOk result (λ image. IsImageOfFrame (Image format) frame.now image.items) }
{
    match format {
        FrameFormat::Ppm => pixmap_of(rt, alloc, frame, bands, buffer),
        FrameFormat::Pam => map_of(rt, alloc, frame, bands, buffer),
        FrameFormat::Rgba => paint_alpha_bands(rt, frame, AlphaForm::Straight, bands, buffer),
    }
}

/// The picture of a frame in a form, in the memory of a buffer.
pub fn image_in<R: Threads + Sync>(
    rt: &R,
    alloc: Global,
    frame: &Frame,
    form: ImageForm,
    bands: u32,
    buffer: Vec<u8>,
) -> Mem<Vec<u8>>
    requires size { IsFrameSize frame.now.size }
    requires some { 1 ≤ bands }
    ensures { IfOk result (λ image. IsImageOfFrame form frame.now image.items) }
{
    match form {
        ImageForm::Image(format) => image_as(rt, alloc, frame, format, bands, buffer),
        ImageForm::Video(form) => video_frame_of(rt, alloc, frame, form, bands, buffer),
    }
}
