//! Composed masks that are ready.
ghost use Rattle.std.specs.Prelude.{◌≡◌, ◌≤◌, [], length, map, All, IfOk, IfErr, vec_capacity, vec_len};
ghost use Rattle.flight_cache.specs.Pinning.{GivesNothing, IsRefused};
ghost use Rattle.cache_kinds.specs.Kinds.{composite_meaning};
ghost use Rattle.mask_keys.specs.Equality.{equal_composites};
ghost use Rattle.mask_caches.specs.Adding.{HoldsAsMuch};
ghost use Rattle.mask_caches.specs.Caches.{IsPassOf};
ghost use Rattle.mask_caches.specs.Pinning.{ArePinned};
ghost use Rattle.mask_caches.specs.declared.lease.Lease.TheVariants.{Pinned};
ghost use Rattle.mask_caches.specs.Leases.{IsHomeLease};

use crate::caches::Caches;
use crate::lease::Lease;
use crate::passes::CachesPass;
use cache_kinds::CompositeMade;
use flight_cache::{Made, Pin, PinRefusal};
use mask_keys::CompositeKey;
use std::alloc::Global;

/// Leases of the pins, in their order. There is room for them.
fn leases_of<M: Made>(pins: Vec<Pin<M>>, room: Vec<Lease<M>>) -> Vec<Lease<M>>
    requires empty { room.items ≡ [] }
    requires len { vec_len room ≡ 0 }
    requires room { length pins.items ≤ vec_capacity room }
    ensures { result.items ≡ map Pinned pins.items }
{
    let mut pins = pins;
    let mut leases = room;
    while let Some(pin) = pins.pop() {
        leases.push_reserved(Lease::Pinned(pin));
    }
    pins.destroy_empty();
    leases.reverse();
    leases
}

impl Caches {
    /// A pinned lease of each key's composed mask, in the order of the keys, or none at all: then nothing is held. It
    /// tries once for the turn of each shard that has one of the keys, waits for nobody and makes nothing.
    ///
    /// Err where a turn is out, where a mask isn't ready or has all its pins (the first such key, by its place), and
    /// where there is no memory.
    pub fn try_composites(
        &self,
        alloc: Global,
        pass: CachesPass,
        keys: Vec<CompositeKey>,
    ) -> (CachesPass, Result<Vec<Lease<CompositeMade>>, PinRefusal>)
        requires { IsPassOf self.now pass }
        ensures pinned { IfOk result.1 (λ leases. ArePinned equal_composites composite_meaning self.now.composites pass.composites keys.items
            result.0.composites leases.items) }
        ensures homes { IfOk result.1 (λ leases. All (IsHomeLease composite_meaning self.now.composites) leases.items) }
        ensures refused { IfErr result.1 (IsRefused equal_composites composite_meaning self.now.composites pass.composites keys.items result.0.composites) }
        ensures nothing { IfErr result.1 (λ refusal. GivesNothing pass.composites result.0.composites) }
        ensures holds { IfErr result.1 (λ refusal. HoldsAsMuch equal_composites composite_meaning self.now.composites pass.composites result.0.composites) }
        ensures masks { result.0.masks ≡ pass.masks }
        ensures regions { result.0.regions ≡ pass.regions }
        ensures pass { IsPassOf self.now result.0 }
    {
        let mut leases = Vec::new(alloc);
        if leases.reserve(keys.len()).is_err() {
            leases.destroy_empty();
            return (pass, Err(PinRefusal::OutOfMemory));
        }
        let CachesPass {
            regions,
            masks,
            composites,
        } = pass;
        self.composites.proof_numbered();
        let (composites, tried) = self.composites.try_pin_all(alloc, composites, keys);
        let pass = CachesPass {
            regions,
            masks,
            composites,
        };
        match tried {
            Ok(pins) => (pass, Ok(leases_of(pins, leases))),
            Err(refusal) => {
                leases.destroy_empty();
                (pass, Err(refusal))
            }
        }
    }
}
