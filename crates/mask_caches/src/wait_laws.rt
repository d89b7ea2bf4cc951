//! A law of waiting. The function does nothing: its contract is the law.
ghost use Rattle.mask_caches.specs.Waiting.{NoRing};

/// Asks of the three caches never wait for one another in a ring: whoever waits for a composed mask has no claim open; whoever
/// waits for a mask has none of a mask or a region; and whoever waits for a region has those of regions of lower ranks alone.
pub fn no_ring()
    ensures { NoRing }
{}
