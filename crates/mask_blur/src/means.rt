//! Means of bytes, without a division.

ghost use Rattle.std.specs.Prelude.{◌≡◌, ◌≤◌, ◌<◌, ◌+◌, ◌*◌, ◌/◌};
ghost use Rattle.mask_blur.specs.Limits.{max_blur};
ghost use Rattle.mask_blur.specs.Scales.{mean_shift, mean_factor};

/// By how many bits more than 16 a product is shifted: so many that the factor has 16 bits, and the quotient is exact.
fn shift_of(radius: u32) -> u32
    ensures { result ≡ mean_shift radius }
{
    match radius {
        0..=14 => 1,
        15..=35 => 4,
        36..=76 => 6,
        _ => 7,
    }
}

/// Rounded means of 2 * radius + 1 bytes.
#[derive(Clone, Copy)]
pub struct Means {
    radius: u16,
    /// 2^(16 + shift) over the number of bytes, rounded up.
    factor: u16,
    shift: u32,
    ghost some: { 0 < radius },
    ghost small: { radius ≤ max_blur },
    ghost shifts: { shift ≡ mean_shift radius },
    ghost exact: { factor ≡ mean_factor radius },
}

impl Means {
    /// Means over `radius` bytes to either side of one.
    pub fn new(radius: u32) -> Means
        requires some { 0 < radius }
        requires small { radius ≤ max_blur }
        ensures { result.radius ≡ radius }
    {
        let shift = shift_of(radius);
        Means {
            radius: radius as u16,
            factor: (((1 << (16 + shift)) + 2 * radius) / (2 * radius + 1)) as u16,
            shift,
        }
    }

    /// How many bytes to either side of one are in its mean.
    pub fn radius(&self) -> usize
        ensures value { result ≡ self.now.radius }
        ensures small { result ≤ max_blur }
    {
        usize::from(self.radius)
    }

    /// The mean of bytes, by their sum with the radius in it.
    pub fn of(&self, sum: u16) -> u8
        requires { sum < 256 * (2 * self.now.radius + 1) }
        ensures { result ≡ sum / (2 * self.now.radius + 1) }
    {
        let product = u32::from(sum) * u32::from(self.factor);
        ((product >> 16) as u16 >> self.shift) as u8
    }
}
