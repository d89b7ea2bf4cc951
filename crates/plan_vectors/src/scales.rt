//! Scales of lines.

ghost use Rattle.std.specs.Prelude.{IfOk};
ghost use Rattle.ass_script.specs.Ranges.{IsScriptHeader};

use crate::telling::numbers_of;
use crate::unreadable;
use ass_num::Size;
use ass_script::{Header, ScriptMatrix};
use frame_view::{FrameView, LetterWidth, PixelAspect, PixelRect, is_frame_view, scales_of};
use std::io;

/// The longest side of a canvas.
const MAX_SIDE: i64 = 16_384;

/// A number that isn't below 0; 0 for one that is.
fn count(number: i64) -> u32 {
    u32::try_from(number).unwrap_or(0)
}

/// A place before or behind 0.
fn place(number: i64) -> i32 {
    i32::try_from(number).unwrap_or(0)
}

fn size_of(numbers: [i64; 2]) -> Size {
    Size {
        w: count(numbers[0]),
        h: count(numbers[1]),
    }
}

/// A head: the sides of its canvas, and 1 where borders are scaled.
fn header_of(numbers: [i64; 3]) -> io::Result<Header>
    ensures { IfOk result IsScriptHeader }
{
    let [res_x, res_y, scaled] = numbers;
    if res_x < 1 || res_y < 1 || res_x > MAX_SIDE || res_y > MAX_SIDE {
        return Err(unreadable());
    }
    Ok(Header {
        res_x: res_x as u32,
        res_y: res_y as u32,
        wrap: 0,
        scaled: scaled == 1,
        matrix: ScriptMatrix::Unsaid,
    })
}

/// A rectangle by its left, its top, its columns and its rows; none where it has none.
fn content_of([left, top, w, h]: [i64; 4]) -> Option<PixelRect> {
    if w == 0 {
        return None;
    }
    Some(PixelRect {
        left: place(left),
        top: place(top),
        w: count(w),
        h: count(h),
    })
}

fn storage_of(sides: [i64; 2]) -> Option<Size> {
    if sides[0] == 0 {
        return None;
    }
    Some(size_of(sides))
}

fn aspect_of([wide, high]: [i64; 2]) -> Option<PixelAspect> {
    if wide == 0 {
        return None;
    }
    Some(PixelAspect {
        wide: count(wide),
        high: count(high),
    })
}

/// A view: its size, its content, its storage, its pixels, 1 where letters go by the aspect, its scale, and 1 with bars.
fn view_of(
    size: Size,
    content: [i64; 4],
    [sides, pixels]: [[i64; 2]; 2],
    [letters, scale, bars]: [i64; 3],
) -> FrameView {
    FrameView {
        size,
        content: content_of(content),
        storage: storage_of(sides),
        aspect: aspect_of(pixels),
        letters: if letters == 1 {
            LetterWidth::Aspect
        } else {
            LetterWidth::Canvas
        },
        scale: count(scale),
        bars: bars == 1,
    }
}

/// Prints the scales of a line: of a head, where the line is typeset or not, in a view.
pub fn show_scales(rt: &HostRuntime, question: &str) -> io::Result<()> {
    let numbers = numbers_of(rt.alloc(), question)?;
    let [
        x,
        y,
        scaled,
        typeset,
        w,
        h,
        left,
        top,
        cw,
        ch,
        sw,
        sh,
        n,
        m,
        by,
        scale,
        bars,
    ] = numbers.as_slice()
    else {
        return Err(unreadable());
    };
    let header = header_of([*x, *y, *scaled])?;
    let frame = view_of(
        size_of([*w, *h]),
        [*left, *top, *cw, *ch],
        [[*sw, *sh], [*n, *m]],
        [*by, *scale, *bars],
    );
    if !is_frame_view(&frame) {
        return Err(unreadable());
    }
    let scales = scales_of(&header, &frame, *typeset == 1);
    println!(rt; "scales {question} => {scales:?}")
}
