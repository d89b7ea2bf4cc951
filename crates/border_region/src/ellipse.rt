//! How far an ellipse of samples reaches in each of its rows.

ghost use Rattle.std.specs.Prelude.{◌≡◌, ◌≤◌, IfOk};
ghost use Rattle.border_region.specs.Limits.{max_radius};
ghost use Rattle.border_region.specs.Ellipse.{AreFalling, AreHalfWidths, IsHalfWidth};

use ass_num::Mem;
use std::alloc::Global;

/// How many samples to each side the ellipse reaches, so many rows from its middle.
fn half_width(rx: u32, ry: u32, distance: u32) -> u16
    requires across { rx ≤ max_radius }
    requires down { ry ≤ max_radius }
    requires within { distance ≤ ry }
    ensures { IsHalfWidth rx ry distance result }
{
    if ry == 0 {
        return rx as u16;
    }
    let (a, b, d) = (u64::from(rx), u64::from(ry), u64::from(distance));
    (a * a * (b * b - d * d) / (b * b)).isqrt() as u16
}

/// An ellipse of samples: its radii, and its half widths in the middle row and in each of the `ry` rows below it.
#[derive(Drop)]
pub struct Ellipse {
    pub rx: u32,
    pub ry: u32,
    pub half_widths: Vec<u16>,
}

/// The ellipse with these radii.
pub fn ellipse_of(alloc: Global, rx: u32, ry: u32) -> Mem<Ellipse>
    requires across { rx ≤ max_radius }
    requires down { ry ≤ max_radius }
    ensures rx { IfOk result (λ ellipse. ellipse.rx ≡ rx) }
    ensures ry { IfOk result (λ ellipse. ellipse.ry ≡ ry) }
    ensures widths { IfOk result (λ ellipse. AreHalfWidths rx ry ellipse.half_widths.items) }
    ensures falling { IfOk result (λ ellipse. AreFalling ellipse.half_widths.items) }
{
    let mut half_widths = Vec::new(alloc);
    for distance in 0..ry + 1 {
        half_widths.push(half_width(rx, ry, distance))?;
    }
    Ok(Ellipse {
        rx,
        ry,
        half_widths,
    })
}
