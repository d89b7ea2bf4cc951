//! The passes of three caches that go together.
ghost use Rattle.mask_caches.specs.Together.{AreTogether};

use cache_kinds::{CompositeMade, MaskMade, RegionMade};
use flight_cache::CachePass;

/// The right to use the three caches: a pass of each.
pub struct CachesPass {
    pub(crate) regions: CachePass<RegionMade>,
    pub(crate) masks: CachePass<MaskMade>,
    pub(crate) composites: CachePass<CompositeMade>,
    ghost together: { AreTogether regions masks composites },
}
