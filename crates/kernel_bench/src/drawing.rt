//! Drawing a square on a canvas.

use crate::blurring::square;
use crate::laps::Laps;
use crate::stop::Stop;
use crate::telling::tell;
use ass_num::{Mask, Rgba, Size};
use blend::{Canvas, Image, Stencil};
use std::alloc::Global;
use std::time::Instant;

/// A white of this alpha.
pub fn white(alpha: u8) -> Rgba {
    Rgba {
        r: 255,
        g: 255,
        b: 255,
        a: alpha,
    }
}

/// A mask in the corner, in one colour.
pub fn corner(mask: &Mask, colour: Rgba) -> Image<&Mask> {
    Image {
        mask,
        x: 0,
        y: 0,
        left: colour,
        right: colour,
        edge: 0,
        stencil: Stencil::Free,
    }
}

fn screen(alloc: Global) -> Result<Canvas, Stop> {
    Ok(Canvas::new(alloc, &Size { w: 1_920, h: 1_080 })?)
}

/// Times a square of one value.
fn measure_square(
    rt: &HostRuntime,
    name: &str,
    side: u16,
    value: u8,
    alpha: u8,
    turns: u32,
) -> Result<(), Stop> {
    let mut canvas = screen(rt.alloc())?;
    let mask = square(rt.alloc(), side, value, 0)?;
    let colour = white(alpha);
    let mut laps = Laps::new();
    for _ in 0..turns {
        let began = Instant::now(rt)?;
        canvas.draw(&corner(&mask, colour));
        laps.add(began.elapsed(rt)?);
    }
    let first = canvas.pixels().first().copied().unwrap_or(0);
    tell(rt, "draw", name, usize::from(first), "first", &laps)
}

/// Times squares with sides of so many pixels on a canvas of 1,920 by 1,080: opaque, half transparent, and of zero bytes.
pub fn measure(rt: &HostRuntime, side: u32, turns: u32) -> Result<(), Stop> {
    if side > 1_080 {
        return Err(Stop::SizeOutOfRange);
    }
    let side = side as u16;
    measure_square(rt, "opaque", side, 255, 0, turns)?;
    measure_square(rt, "half transparent", side, 255, 127, turns)?;
    measure_square(rt, "zero bytes", side, 0, 0, turns)
}
