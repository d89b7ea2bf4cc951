//! Painting frames.
ghost use Rattle.std.specs.Prelude.{◌≡◌, ◌≤◌, List, IfOk, map};
ghost use Rattle.alpha_canvas.specs.Alpha.{AreAlphaRows};
ghost use Rattle.ass_num.specs.Limits.{IsFrameSize};
ghost use Rattle.bdf_font.specs.Fonts.{FontValue};
ghost use Rattle.mask_keys.specs.declared.plans.Draw.{Draw};
ghost use Rattle.mask_keys.specs.Pictures.{image_of_draw, picture};
ghost use Rattle.renderer.specs.ShownFrames.{AreFramePixels, ShowsDraws, canvas_of};

use crate::frames::Frame;
use alpha_canvas::AlphaForm;
use ass_num::Mem;
use blend::Canvas;
use std::alloc::Global;
use std::thread::Threads;

/// The picture of a frame, from black. Only the canvas takes memory.
pub fn paint(alloc: Global, frame: &Frame) -> Mem<Canvas>
    requires { IsFrameSize frame.now.size }
    ensures canvas { IfOk result (λ canvas. canvas ≡ canvas_of frame.now) }
    ensures picture { (fonts : List FontValue) (draws : List Draw) → ShowsDraws fonts draws frame.now
        → IfOk result (λ canvas. canvas ≡ picture fonts frame.now.size draws) }
{
    blend::paint(alloc, &frame.size, frame.images.as_slice())
}

/// The picture of a frame, from black, drawn in so many bands of rows at once. It is what [`paint`] gives; only the canvas takes memory.
pub fn paint_bands<R: Threads + Sync>(
    rt: &R,
    alloc: Global,
    frame: &Frame,
    bands: u32,
) -> Mem<Canvas>
    requires size { IsFrameSize frame.now.size }
    requires some { 1 ≤ bands }
    ensures canvas { IfOk result (λ canvas. canvas ≡ canvas_of frame.now) }
    ensures picture { (fonts : List FontValue) (draws : List Draw) → ShowsDraws fonts draws frame.now
        → IfOk result (λ canvas. canvas ≡ picture fonts frame.now.size draws) }
{
    blend::paint_bands(rt, alloc, &frame.size, frame.images.as_slice(), bands)
}

/// The picture of a frame with alpha, painted over nothing in so many bands of rows at once, in the memory of a buffer: four bytes for each
/// pixel, red, green, blue and alpha, row by row. What was in the buffer is lost.
pub fn paint_alpha_bands<R: Threads + Sync>(
    rt: &R,
    frame: &Frame,
    form: AlphaForm,
    bands: u32,
    buffer: Vec<u8>,
) -> Mem<Vec<u8>>
    requires size { IsFrameSize frame.now.size }
    requires some { 1 ≤ bands }
    ensures pixels { IfOk result (λ pixels. AreFramePixels form frame.now pixels.items) }
    ensures picture { (fonts : List FontValue) (draws : List Draw) → ShowsDraws fonts draws frame.now
        → IfOk result (λ pixels. AreAlphaRows form (map (image_of_draw fonts) draws) frame.now.size.w 0 frame.now.size.h pixels.items) }
{
    let mut pixels = buffer;
    pixels.resize(4 * (frame.size.h as usize * frame.size.w as usize), 0)?;
    alpha_bands::paint_alpha_bands(
        rt,
        frame.images.as_slice(),
        form,
        pixels.as_mut_slice(),
        &frame.size,
        bands,
    );
    Ok(pixels)
}
