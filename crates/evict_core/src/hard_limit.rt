//! A limit that nothing may pass.
ghost use Rattle.std.specs.Prelude.{◌≡◌};
ghost use Rattle.evict_core.specs.Machine.{IsHardLimit, is_held};

/// A hard limit: what all entries may cost together, at most 2^40, and what each that is being made counts for, at most 2^32,
/// since what its value costs isn't known yet.
#[derive(Clone, Copy, Debug, PartialEq, Eq)]
pub struct HardLimit {
    pub cost: u64,
    pub making: u64,
}

/// Whether the limit, where there is one, holds what costs so much and so many that are being made.
pub(crate) fn is_held(hard: Option<HardLimit>, cost: u64, makings: u32) -> bool
    requires { IsHardLimit hard }
    ensures { result ≡ is_held hard cost makings }
{
    match hard {
        None => true,
        Some(hard) => {
            let made = hard.making * u64::from(makings);
            cost <= hard.cost && made <= hard.cost - cost
        }
    }
}
