//! Heads and frames.

ghost use Rattle.std.specs.Prelude.{◌≡◌, ◌+◌, ◌*◌, ◌<◌, ◌≤◌, ◌++◌, length, IfOk, OnOk, string_bytes};
ghost use Rattle.ass_num.specs.Limits.{IsFrameSize, max_frame_side};
ghost use Rattle.y4m_text.specs.Bounds.{IsChromaScale, IsSumOf};
ghost use Rattle.y4m_text.specs.Colours.{weights_of};
ghost use Rattle.y4m_text.specs.Streams.{block_sum, chroma_pixels, chroma_plane, chroma_row, chroma_side, chroma_sum, colour_sum, frame_bytes, luma_plane};
ghost use Rattle.y4m_text.specs.Streams.{picture_colour, pixel_near, range_word, sampling_word, stream_head};

use crate::colour::{ChromaChannel, ChromaScale, Colour, chroma, chroma_scale, luma, weights_of};
use crate::form::{Sampling, VideoForm};
use ass_num::{Mem, Size};
use ass_script::ColourRange;
use std::alloc::Global;

fn sampling_word(sampling: Sampling) -> &'static str
    ensures { result.now ≡ sampling_word sampling }
{
    match sampling {
        Sampling::Yuv444 => "444",
        Sampling::Yuv420 => "420jpeg",
    }
}

fn range_word(range: ColourRange) -> &'static str
    ensures { result.now ≡ range_word range }
{
    match range {
        ColourRange::Limited => "LIMITED",
        ColourRange::Full => "FULL",
    }
}

/// The line before all frames of a stream, which has so many frames in so many seconds.
pub fn stream_head(
    alloc: Global,
    size: &Size,
    frames: u32,
    seconds: u64,
    form: VideoForm,
) -> Mem<String>
    ensures { IfOk result (λ head. string_bytes head ≡ stream_head size.now frames seconds form) }
{
    let w = size.w;
    let h = size.h;
    let sampling = sampling_word(form.sampling);
    let range = range_word(form.colours.range);
    Ok(format!(in alloc;
        "YUV4MPEG2 W{w} H{h} F{frames}:{seconds} Ip A1:1 C{sampling} XCOLORRANGE={range}\n"
    )?)
}

/// Pixel `k` of a picture of three bytes a pixel.
fn picture_colour(pixels: &[u8], k: usize) -> Colour
    requires { 3 * k + 3 ≤ length pixels.now }
    ensures value { result ≡ picture_colour pixels.now k }
    ensures bytes { IsSumOf 1 result }
{
    Colour {
        r: u32::from(pixels[3 * k]),
        g: u32::from(pixels[3 * k + 1]),
        b: u32::from(pixels[3 * k + 2]),
    }
}

/// The pixel in column `i` and row `j`, or the nearest one that the picture has.
fn pixel_near(size: &Size, pixels: &[u8], i: u32, j: u32) -> Colour
    requires bytes { length pixels.now ≡ 3 * (size.now.w * size.now.h) }
    requires wide { 0 < size.now.w }
    requires high { 0 < size.now.h }
    ensures value { result ≡ pixel_near size.now pixels.now i j }
    ensures bytes { IsSumOf 1 result }
{
    let row = j.min(size.h - 1) as usize;
    let column = i.min(size.w - 1) as usize;
    picture_colour(pixels, size.w as usize * row + column)
}

/// The sum of two colours, or of two and two.
fn colour_sum(c: Colour, d: Colour, n: u32) -> Colour
    requires few { n ≤ 2 }
    requires first { IsSumOf n c }
    requires second { IsSumOf n d }
    ensures value { result ≡ colour_sum c d }
    ensures bytes { IsSumOf (2 * n) result }
{
    Colour {
        r: c.r + d.r,
        g: c.g + d.g,
        b: c.b + d.b,
    }
}

/// The sum of the four pixels of the block in column `i` and row `j`.
fn block_sum(size: &Size, pixels: &[u8], i: u32, j: u32) -> Colour
    requires bytes { length pixels.now ≡ 3 * (size.now.w * size.now.h) }
    requires wide { 0 < size.now.w }
    requires high { 0 < size.now.h }
    requires column { i < max_frame_side }
    requires row { j < max_frame_side }
    ensures value { result ≡ block_sum size.now pixels.now i j }
    ensures bytes { IsSumOf 4 result }
{
    let left = 2 * i;
    let top = 2 * j;
    let upper = colour_sum(
        pixel_near(size, pixels, left, top),
        pixel_near(size, pixels, left + 1, top),
        1,
    );
    let lower = colour_sum(
        pixel_near(size, pixels, left, top + 1),
        pixel_near(size, pixels, left + 1, top + 1),
        1,
    );
    colour_sum(upper, lower, 2)
}

/// How many columns or rows of chroma samples there are, by those of the picture.
fn chroma_side(sampling: Sampling, n: u32) -> u32
    ensures value { result ≡ chroma_side sampling n }
    ensures few { result ≤ n }
{
    match sampling {
        Sampling::Yuv444 => n,
        Sampling::Yuv420 => n.div_ceil(2),
    }
}

/// Of how many pixels a chroma sample is.
fn chroma_pixels(sampling: Sampling) -> u32
    ensures value { result ≡ chroma_pixels sampling }
    ensures some { 1 ≤ result }
    ensures few { result ≤ 4 }
{
    match sampling {
        Sampling::Yuv444 => 1,
        Sampling::Yuv420 => 4,
    }
}

/// The sum of the pixels of the chroma sample in column `i` and row `j`.
fn chroma_sum(sampling: Sampling, size: &Size, pixels: &[u8], i: u32, j: u32) -> Colour
    requires size { IsFrameSize size.now }
    requires bytes { length pixels.now ≡ 3 * (size.now.w * size.now.h) }
    requires column { i < chroma_side sampling size.now.w }
    requires row { j < chroma_side sampling size.now.h }
    ensures value { result ≡ chroma_sum sampling size.now pixels.now i j }
    ensures bytes { IsSumOf (chroma_pixels sampling) result }
{
    match sampling {
        Sampling::Yuv444 => pixel_near(size, pixels, i, j),
        Sampling::Yuv420 => block_sum(size, pixels, i, j),
    }
}

/// Adds the luma of all pixels.
fn add_luma(bytes: &mut Vec<u8>, size: &Size, pixels: &[u8], form: VideoForm) -> Mem<()>
    requires size { IsFrameSize size.now }
    requires bytes { length pixels.now ≡ 3 * (size.now.w * size.now.h) }
    ensures { OnOk result (bytes.new.items ≡ bytes.old.items ++ luma_plane form size.now pixels.now) }
{
    let weights = weights_of(form.colours.matrix);
    for k in 0..size.w * size.h {
        bytes.push(luma(
            weights,
            form.colours.range,
            picture_colour(pixels, k as usize),
        ))?;
    }
    Ok(())
}

/// Adds row `j` of the chroma samples of a scale.
fn add_chroma_row(
    bytes: &mut Vec<u8>,
    scale: ChromaScale,
    size: &Size,
    pixels: &[u8],
    form: VideoForm,
    j: u32,
) -> Mem<()>
    requires size { IsFrameSize size.now }
    requires bytes { length pixels.now ≡ 3 * (size.now.w * size.now.h) }
    requires row { j < chroma_side form.sampling size.now.h }
    requires scale { IsChromaScale scale }
    requires weights { scale.weights ≡ weights_of form.colours.matrix }
    requires range { scale.range ≡ form.colours.range }
    requires pixels { scale.pixels ≡ chroma_pixels form.sampling }
    ensures { OnOk result (bytes.new.items ≡ bytes.old.items ++ chroma_row scale.which form size.now pixels.now j) }
{
    for i in 0..chroma_side(form.sampling, size.w) {
        bytes.push(chroma(scale, chroma_sum(form.sampling, size, pixels, i, j)))?;
    }
    Ok(())
}

/// Adds a chroma, row by row.
fn add_chroma(
    bytes: &mut Vec<u8>,
    which: ChromaChannel,
    size: &Size,
    pixels: &[u8],
    form: VideoForm,
) -> Mem<()>
    requires size { IsFrameSize size.now }
    requires bytes { length pixels.now ≡ 3 * (size.now.w * size.now.h) }
    ensures { OnOk result (bytes.new.items ≡ bytes.old.items ++ chroma_plane which form size.now pixels.now) }
{
    let weights = weights_of(form.colours.matrix);
    let scale = chroma_scale(
        which,
        weights,
        form.colours.range,
        chroma_pixels(form.sampling),
    );
    for j in 0..chroma_side(form.sampling, size.h) {
        add_chroma_row(bytes, scale, size, pixels, form, j)?;
    }
    Ok(())
}

/// How many bytes a frame has.
fn frame_length(size: &Size, sampling: Sampling) -> usize
    requires { IsFrameSize size.now }
{
    let columns = chroma_side(sampling, size.w) as usize;
    let rows = chroma_side(sampling, size.h) as usize;
    6 + size.w as usize * size.h as usize + 2 * (columns * rows)
}

/// A picture of three bytes a pixel as a frame, in the memory of a buffer, whose bytes are dropped.
pub fn frame_bytes_in(buffer: Vec<u8>, size: &Size, pixels: &[u8], form: VideoForm) -> Mem<Vec<u8>>
    requires size { IsFrameSize size.now }
    requires bytes { length pixels.now ≡ 3 * (size.now.w * size.now.h) }
    ensures { IfOk result (λ frame. frame.items ≡ frame_bytes form size.now pixels.now) }
{
    let mut frame = buffer;
    frame.clear();
    frame.reserve_exact(frame_length(size, form.sampling))?;
    frame.extend_from_slice(b"FRAME\n")?;
    add_luma(&mut frame, size, pixels, form)?;
    add_chroma(&mut frame, ChromaChannel::Blue, size, pixels, form)?;
    add_chroma(&mut frame, ChromaChannel::Red, size, pixels, form)?;
    Ok(frame)
}
