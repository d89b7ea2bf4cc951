//! What a caller has of a value.
ghost use Rattle.std.specs.Prelude.{◌≡◌, false, IfOk};
ghost use Rattle.std.specs.Arc.{arc_value};
ghost use Rattle.flight_cache.specs.Shards.{IsCacheOf};
ghost use Rattle.mask_caches.specs.Adding.{Adds};
ghost use Rattle.mask_caches.specs.Leases.{HoldsLease, given_steps, is_pinned, lease_value, IsHomeLease};

use ass_num::{Mask, Mem};
use blend::AsMask;
use cache_kinds::CompositeMade;
use flight_cache::{Cache, CachePass, Made, Pin};
use std::sync::{Arc, Wait};

/// A value that is pinned in its cache, or one that was made apart, or one that was made here and for which the cache had no room. It
/// must be given back.
pub enum Lease<M: Made> {
    Pinned(Pin<M>),
    Own(Arc<M::Value>),
}

impl<M: Made> Lease<M> {
    /// The value.
    pub fn value(&self) -> &M::Value
        ensures { result.now ≡ lease_value self.now }
    {
        match self {
            Lease::Pinned(pin) => pin.value(),
            Lease::Own(value) => value,
        }
    }

    /// The value, shared with the lease.
    pub(crate) fn share(&self) -> Mem<Arc<M::Value>>
        ensures { IfOk result (λ a. arc_value a ≡ lease_value self.now) }
    {
        match self {
            Lease::Pinned(pin) => pin.share(),
            Lease::Own(value) => Ok(Arc::try_clone(value)?),
        }
    }
}

impl AsMask for Lease<CompositeMade> {
    ghost use Rattle.mask_caches.specs.Leases.{lease_value};

    ghost mask = { λ lease. lease_value lease };

    fn as_mask(&self) -> &Mask {
        self.value()
    }
}

/// Gives back what was had of a value.
pub(crate) fn give_back<M: Made, R: Wait>(
    cache: &Cache<M>,
    rt: &R,
    pass: CachePass<M>,
    lease: Lease<M>,
) -> CachePass<M>
    requires cell { IsCacheOf cache.now pass }
    requires own { IsHomeLease M.meaning cache.now lease }
    requires held { HoldsLease M.Key.eq M.meaning cache.now pass lease }
    ensures steps { Adds M.Key.eq M.meaning cache.now pass result (given_steps lease) }
    ensures own { is_pinned lease ≡ false → result ≡ pass }
{
    match lease {
        Lease::Pinned(pin) => cache.unpin(rt, pass, pin),
        Lease::Own(_value) => pass,
    }
}
