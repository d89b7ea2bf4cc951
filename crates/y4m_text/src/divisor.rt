//! Quotients by a multiplication.

ghost use Rattle.std.specs.Prelude.{◌≡◌, ◌*◌, ◌/◌, ◌<◌, ◌≤◌};
ghost use Rattle.y4m_text.specs.Bounds.{IsDivisor, max_chroma_divisor};

/// 2 to the power of 55.
const ONE: u64 = 36_028_797_018_963_968;

/// A divisor of many numbers, with the reciprocal in steps of which `ONE` make 1, rounded up.
#[derive(Clone, Copy)]
pub struct Divisor {
    pub value: u32,
    pub reciprocal: u64,
}

impl Divisor {
    pub fn new(value: u32) -> Divisor
        requires some { 0 < value }
        requires most { value ≤ max_chroma_divisor }
        ensures value { result.value ≡ value }
        ensures divisor { IsDivisor result }
    {
        Divisor {
            value,
            reciprocal: ONE / u64::from(value) + 1,
        }
    }

    /// A quotient below 257.
    pub fn quotient(self, n: u32) -> u32
        requires divisor { IsDivisor self }
        requires small { n < 257 * self.value }
        ensures { result ≡ n / self.value }
    {
        (u64::from(n) * self.reciprocal / ONE) as u32
    }
}
