//! The values of keys, from what they are made of.
ghost use Rattle.std.specs.Prelude.{◌≡◌, IfOk};
ghost use Rattle.std.specs.Arc.{arc_value};
ghost use Rattle.mask_keys.specs.Keys.{IsValidRegion};
ghost use Rattle.mask_keys.specs.Outlines.{IsFontSet, glyph_counts};
ghost use Rattle.mask_keys.specs.Values.{region_value};
ghost use Rattle.local_caches.specs.Unwidened.{IsUnwidened};

use ass_num::{Mem, Region};
use bdf_font::FontSet;
use made_values::made_outline;
use mask_keys::RegionKey;
use std::alloc::Global;
use std::sync::Arc;

/// The region of an outline that isn't widened.
pub fn outline_from(alloc: Global, fonts: &FontSet, key: &RegionKey) -> Mem<Arc<Region>>
    requires fonts { IsFontSet fonts.now.fonts }
    requires key { IsValidRegion (glyph_counts fonts.now.fonts) key.now }
    requires no_border { IsUnwidened key.now }
    ensures { IfOk result (λ a. arc_value a ≡ region_value fonts.now.fonts key.now) }
{
    let region = made_outline(alloc, fonts, &key.outline)?;
    Ok(Arc::new(alloc, region)?)
}
