//! How many pixels of a frame stand for how many of a script, of each kind of length.

ghost use Rattle.std.specs.Prelude.{◌≡◌, ◌≤◌, None};
ghost use Rattle.ass_num.specs.Limits.{IsFrameSize};
ghost use Rattle.ass_script.specs.Ranges.{IsCanvasSide, IsScriptHeader};
ghost use Rattle.frame_view.specs.FrameScales.{AreSideRatios, IsLetterRatio, IsScales, across_by, across_by_aspect, letter_ratios, letter_scale_of};
ghost use Rattle.frame_view.specs.FrameScales.{plain_scales, ratios_of, scales_of, seen_scales};
ghost use Rattle.frame_view.specs.FrameViews.{IsAspect, IsFrameView, IsLayoutSide};
ghost use Rattle.frame_view.specs.Limits.{max_layout_side, max_letter_scale};

use crate::sides::{canvas_size, ground_of, is_size_alone, layout_size, shown_sides, whole_rect};
use crate::view::{FrameView, LetterWidth, PixelAspect, PixelRect};
use ass_num::Size;
use ass_script::Header;

/// So many pixels of the frame for so many of a script, or of its video.
#[derive(Clone, Copy, Debug, PartialEq, Eq)]
pub struct Ratio {
    pub pixels: u32,
    pub units: u32,
}

/// Across the frame and down it.
#[derive(Clone, Copy, Debug, PartialEq, Eq)]
pub struct Ratios {
    pub x: Ratio,
    pub y: Ratio,
}

/// The scales of a line.
#[derive(Clone, Copy, Debug, PartialEq, Eq)]
pub struct Scales {
    /// Of places, margins, clips, drawings and spacing.
    pub canvas: Ratios,
    pub letters: Ratios,
    /// Of borders and shadows.
    pub borders: Ratios,
    /// Of blurs, down the frame.
    pub blur: Ratio,
    /// The rectangle from whose edges margins count, and from whose upper left corner places do.
    pub ground_rect: PixelRect,
    /// How many columns of it the canvas doesn't fill.
    pub spare: u32,
    /// How large letters, drawings, borders and blurs are, in thousandths of what the script says.
    pub letter_scale: u32,
}

/// A pixel of the frame for each of the script.
const ONES_TO_ONES: Ratios = Ratios {
    x: Ratio {
        pixels: 1,
        units: 1,
    },
    y: Ratio {
        pixels: 1,
        units: 1,
    },
};

/// So many columns and rows show so many.
fn ratios_of(sides: &Size, shown: &Size) -> Ratios
    requires sides { IsFrameSize sides.now }
    requires wide { IsLayoutSide shown.now.w }
    requires high { IsLayoutSide shown.now.h }
    ensures value { result ≡ ratios_of sides.now shown.now }
    ensures range { AreSideRatios max_layout_side result }
{
    Ratios {
        x: Ratio {
            pixels: sides.w,
            units: shown.w,
        },
        y: Ratio {
            pixels: sides.h,
            units: shown.h,
        },
    }
}

/// Letters across, where the shape of the video's pixels is given.
fn across_by_aspect(canvas: &Size, sides: &Size, aspect: &PixelAspect) -> Ratio
    requires canvas { IsCanvasSide canvas.now.h }
    requires sides { IsFrameSize sides.now }
    requires aspect { IsAspect aspect.now }
    ensures value { result ≡ across_by_aspect canvas.now sides.now aspect.now }
    ensures range { IsLetterRatio result }
{
    Ratio {
        pixels: sides.h * aspect.wide,
        units: canvas.h * aspect.high,
    }
}

/// The same, where it isn't: by the video's own size, or square pixels.
fn across_by_storage(canvas: &Size, sides: &Size, frame: &FrameView) -> Ratio
    requires canvas { IsCanvasSide canvas.now.h }
    requires sides { IsFrameSize sides.now }
    requires frame { IsFrameView frame.now }
    ensures value { result ≡ across_by canvas.now sides.now None frame.now.storage }
    ensures range { IsLetterRatio result }
{
    match frame.storage {
        Some(storage) => Ratio {
            pixels: sides.w * storage.h,
            units: canvas.h * storage.w,
        },
        None => Ratio {
            pixels: sides.h,
            units: canvas.h,
        },
    }
}

/// Letters across, where they keep the shape that they have on the video.
fn across_of(canvas: &Size, sides: &Size, frame: &FrameView) -> Ratio
    requires canvas { IsCanvasSide canvas.now.h }
    requires sides { IsFrameSize sides.now }
    requires frame { IsFrameView frame.now }
    ensures value { result ≡ across_by canvas.now sides.now frame.now.aspect frame.now.storage }
    ensures range { IsLetterRatio result }
{
    match frame.aspect {
        Some(aspect) => across_by_aspect(canvas, sides, &aspect),
        None => across_by_storage(canvas, sides, frame),
    }
}

/// The scales of letters.
fn letter_ratios(header: &Header, frame: &FrameView, sides: &Size) -> Ratios
    requires header { IsScriptHeader header.now }
    requires frame { IsFrameView frame.now }
    requires sides { IsFrameSize sides.now }
    ensures value { result ≡ letter_ratios header.now frame.now sides.now }
    ensures across { IsLetterRatio result.x }
    ensures down { IsLetterRatio result.y }
{
    let canvas = canvas_size(header);
    let ratios = ratios_of(sides, &canvas);
    match frame.letters {
        LetterWidth::Canvas => ratios,
        LetterWidth::Aspect => Ratios {
            x: across_of(&canvas, sides, frame),
            y: ratios.y,
        },
    }
}

/// The scales of lines in a frame of which the size alone is known.
fn plain_scales(header: &Header, size: &Size, letter_scale: u32) -> Scales
    requires header { IsScriptHeader header.now }
    requires size { IsFrameSize size.now }
    requires scale { letter_scale ≤ max_letter_scale }
    ensures value { result ≡ plain_scales header.now size.now letter_scale }
    ensures range { IsScales result }
{
    let canvas = ratios_of(size, &canvas_size(header));
    let borders = if header.scaled { canvas } else { ONES_TO_ONES };
    Scales {
        canvas,
        letters: canvas,
        borders,
        blur: borders.y,
        ground_rect: whole_rect(size),
        spare: 0,
        letter_scale,
    }
}

/// The scales of a line in any other frame.
fn seen_scales(header: &Header, frame: &FrameView, typeset: bool, letter_scale: u32) -> Scales
    requires header { IsScriptHeader header.now }
    requires frame { IsFrameView frame.now }
    requires scale { letter_scale ≤ max_letter_scale }
    ensures value { result ≡ seen_scales header.now frame.now typeset letter_scale }
    ensures range { IsScales result }
{
    let sides = shown_sides(frame, typeset);
    let canvas = ratios_of(&sides, &canvas_size(header));
    let layout = ratios_of(&sides, &layout_size(header, frame));
    let ground_rect = ground_of(frame, typeset);
    Scales {
        canvas,
        letters: letter_ratios(header, frame, &sides),
        borders: if header.scaled { canvas } else { layout },
        blur: layout.y,
        ground_rect,
        spare: ground_rect.w.saturating_sub(sides.w),
        letter_scale,
    }
}

/// How large the letters of a line are.
fn letter_scale_of(frame: &FrameView, typeset: bool) -> u32
    requires { IsFrameView frame.now }
    ensures value { result ≡ letter_scale_of frame.now typeset }
    ensures within { result ≤ max_letter_scale }
{
    if typeset { 1_000 } else { frame.scale }
}

/// The scales of a line of a script that is typeset, or isn't (Advanced SubStation Alpha, "PlayResX").
pub fn scales_of(header: &Header, frame: &FrameView, typeset: bool) -> Scales
    requires header { IsScriptHeader header.now }
    requires frame { IsFrameView frame.now }
    ensures value { result ≡ scales_of header.now frame.now typeset }
    ensures range { IsScales result }
{
    let letter_scale = letter_scale_of(frame, typeset);
    if is_size_alone(frame) {
        plain_scales(header, &frame.size, letter_scale)
    } else {
        seen_scales(header, frame, typeset, letter_scale)
    }
}
