//! The three caches.
ghost use Rattle.std.specs.Arc.{arc_value};
ghost use Rattle.mask_keys.specs.Outlines.{IsFontSet};
ghost use Rattle.mask_caches.specs.FontProps.{font_props};
ghost use Rattle.mask_caches.specs.Together.{HaveFonts};

use bdf_font::FontSet;
use cache_kinds::{CompositeMade, MaskMade, RegionMade};
use flight_cache::Cache;
use std::sync::Arc;

/// The caches of regions, of masks and of composed masks, which threads ask by `&`.
pub struct Caches {
    pub(crate) fonts: Arc<FontSet>,
    pub(crate) regions: Cache<RegionMade>,
    pub(crate) masks: Cache<MaskMade>,
    pub(crate) composites: Cache<CompositeMade>,
    ghost tags: { HaveFonts fonts regions.tag masks.tag composites.tag },
    ghost whole: { IsFontSet (arc_value fonts).fonts } by { Prim.hlevel font_props },
}
