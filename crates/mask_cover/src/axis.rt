//! Pixels and samples along an axis.

ghost use Rattle.std.specs.Prelude.{◌≡◌, pos, neg_ℤ, ◌<◌, ◌^◌, ◌+ℤ◌, ◌-ℤ◌, ◌*ℤ◌, ◌<ℤ◌, ◌≤ℤ◌};
ghost use Rattle.ass_num.specs.Coverage.{first_sample};
ghost use Rattle.mask_cover.specs.Columns.{Falls};

/// The pixels in which a stretch of samples falls.
#[derive(Clone, Copy)]
pub struct Axis {
    /// The first pixel.
    pub first: i32,
    /// How many pixels there are.
    pub count: u32,
    /// The first sample of the first pixel.
    pub start: i64,
}

/// The pixels of the samples from `from` up to but not with `to` under a phase.
pub fn axis_of(from: i32, to: i64, phase: u8) -> Axis
    requires phase { phase < 16 }
    requires some { from <ℤ to }
    requires high { to ≤ℤ pos (2 ^ 31) }
    ensures first { Falls phase from result.first }
    ensures last { Falls phase (to -ℤ pos 1) ((result.first +ℤ pos result.count) -ℤ pos 1) }
    ensures start { result.start ≡ first_sample phase result.first }
    ensures low { neg_ℤ (pos (2 ^ 32)) ≤ℤ result.start }
    ensures count { result.count < 2 ^ 30 }
{
    let first = pixel_of(i64::from(from), phase);
    let last = pixel_of(to - 1, phase);
    let count = place_of(last, i64::from(first)) + 1;
    Axis {
        first,
        count: count as u32,
        start: start_of(first, phase),
    }
}

/// The pixel in which a sample falls under a phase.
fn pixel_of(sample: i64, phase: u8) -> i32
    requires phase { phase < 16 }
    requires low { neg_ℤ (pos (2 ^ 31)) ≤ℤ sample }
    requires high { sample <ℤ pos (2 ^ 31) }
    ensures { Falls phase sample result }
{
    (sample + i64::from(phase)).div_euclid(16) as i32
}

/// The first sample of a pixel under a phase.
fn start_of(pixel: i32, phase: u8) -> i64
    ensures { result ≡ first_sample phase pixel }
{
    i64::from(pixel) * 16 - i64::from(phase)
}

/// How far a sample or a pixel lies behind `first`.
pub fn place_of(at: i32, first: i64) -> usize
    requires behind { first ≤ℤ at }
    requires low { neg_ℤ (pos (2 ^ 32)) ≤ℤ first }
    ensures { at ≡ first +ℤ pos result }
{
    (i64::from(at) - first) as usize
}
