//! Painting a square with alpha.

ghost use Rattle.ass_num.specs.Limits.{IsFrameSize};

use crate::blurring::square;
use crate::drawing::{corner, white};
use crate::laps::Laps;
use crate::stop::Stop;
use crate::telling::tell;
use alpha_canvas::{AlphaForm, paint_alpha_rows};
use ass_num::{Mask, Size};
use std::time::Instant;

/// Times a mask on a frame.
fn measure_mask(
    rt: &HostRuntime,
    size: &Size,
    name: &str,
    mask: &Mask,
    alpha: u8,
    turns: u32,
) -> Result<(), Stop>
    requires { IsFrameSize size.now }
{
    let mut bytes = vec![in rt.alloc(); 0u8; 4 * (size.h as usize * size.w as usize)]?;
    let images = [corner(mask, white(alpha))];
    let mut laps = Laps::new();
    for _ in 0..turns {
        let began = Instant::now(rt)?;
        paint_alpha_rows(
            &images,
            AlphaForm::Straight,
            bytes.as_mut_slice(),
            size.w,
            0,
            size.h,
        );
        laps.add(began.elapsed(rt)?);
    }
    let first = bytes.get(3).copied().unwrap_or(0);
    tell(rt, "alpha", name, usize::from(first), "first", &laps)
}

/// Times squares with sides of so many pixels over nothing, on a frame of 1,920 by 1,080: opaque, half transparent, and of zero bytes.
pub fn measure(rt: &HostRuntime, side: u32, turns: u32) -> Result<(), Stop> {
    if side > 1_080 {
        return Err(Stop::SizeOutOfRange);
    }
    let size = Size { w: 1_920, h: 1_080 };
    let full = square(rt.alloc(), side as u16, 255, 0)?;
    let empty = square(rt.alloc(), side as u16, 0, 0)?;
    measure_mask(rt, &size, "opaque", &full, 0, turns)?;
    measure_mask(rt, &size, "half transparent", &full, 127, turns)?;
    measure_mask(rt, &size, "zero bytes", &empty, 0, turns)
}
