//! Softening and blurring a square mask.

ghost use Rattle.std.specs.Prelude.{◌≡◌, ◌≤◌, pos, IfOk};
ghost use Rattle.mask_blur.specs.Limits.{max_blur};

use crate::laps::Laps;
use crate::stop::Stop;
use crate::telling::{show_bytes, tell};
use ass_num::{Mask, is_mask};
use mask_blur::{box_blur, soften};
use std::alloc::Global;
use std::time::Instant;

/// A square mask at the origin, whose bytes grow from `first` on by `step` from one to the next, without what is above 255.
pub fn square(alloc: Global, side: u16, first: u8, step: u8) -> Result<Mask, Stop>
    ensures x { IfOk result (λ mask. mask.x ≡ pos 0) }
    ensures y { IfOk result (λ mask. mask.y ≡ pos 0) }
    ensures w { IfOk result (λ mask. mask.w ≡ side) }
    ensures h { IfOk result (λ mask. mask.h ≡ side) }
{
    let mut bytes = vec![in alloc; 0u8; side as usize * side as usize]?;
    let mut byte = first;
    for place in bytes.iter_mut() {
        *place = byte;
        byte = byte.wrapping_add(step);
    }
    let side = u32::from(side);
    if !is_mask(0, 0, side, side, bytes.as_slice()) {
        return Err(Stop::SizeOutOfRange);
    }
    Ok(Mask::new(0, 0, side, side, bytes))
}

fn middle(mask: &Mask) -> u8 {
    let (w, h) = (mask.w() as usize, mask.h() as usize);
    mask.bytes().get(h / 2 * w + w / 2).copied().unwrap_or(0)
}

fn measure_passes(rt: &HostRuntime, name: &str, side: u16, n: u8, turns: u32) -> Result<(), Stop> {
    let mask = square(rt.alloc(), side, 255, 37)?;
    let mut laps = Laps::new();
    let mut byte = 0;
    for _ in 0..turns {
        let began = Instant::now(rt)?;
        let softened = soften(rt.alloc(), &mask, u32::from(n))?;
        laps.add(began.elapsed(rt)?);
        byte = middle(&softened);
    }
    tell(
        rt,
        "soften",
        name,
        usize::from(byte),
        "in the middle",
        &laps,
    )
}

fn measure_radius(rt: &HostRuntime, name: &str, side: u16, r: u8, turns: u32) -> Result<(), Stop>
    requires { r ≤ max_blur }
{
    let mask = square(rt.alloc(), side, 255, 37)?;
    let mut laps = Laps::new();
    let mut byte = 0;
    for _ in 0..turns {
        let began = Instant::now(rt)?;
        let blurred = box_blur(rt.alloc(), &mask, u32::from(r))?;
        laps.add(began.elapsed(rt)?);
        byte = middle(&blurred);
    }
    tell(rt, "blur", name, usize::from(byte), "in the middle", &laps)
}

/// Times 1 and 10 passes of softening, and blurs of the radii 2, 20 and 100, of a mask with sides of so many pixels.
pub fn measure(rt: &HostRuntime, side: u32, turns: u32) -> Result<(), Stop> {
    if side > 1_080 {
        return Err(Stop::SizeOutOfRange);
    }
    let side = side as u16;
    measure_passes(rt, "1 pass", side, 1, turns)?;
    measure_passes(rt, "10 passes", side, 10, turns)?;
    measure_radius(rt, "radius 2", side, 2, turns)?;
    measure_radius(rt, "radius 20", side, 20, turns)?;
    measure_radius(rt, "radius 100", side, 100, turns)
}

fn show_softened(rt: &HostRuntime) -> Result<(), Stop> {
    let mask = square(rt.alloc(), 1, 255, 0)?;
    let softened = soften(rt.alloc(), &mask, 1)?;
    show_bytes(rt, "softened once", softened.bytes())
}

fn show_blurred(rt: &HostRuntime) -> Result<(), Stop> {
    let mask = square(rt.alloc(), 2, 255, 85)?;
    let blurred = box_blur(rt.alloc(), &mask, 1)?;
    show_bytes(rt, "blurred by 1", blurred.bytes())
}

/// Prints a pixel softened once, and four pixels blurred with the radius 1.
pub fn show(rt: &HostRuntime) -> Result<(), Stop> {
    show_softened(rt)?;
    show_blurred(rt)
}
