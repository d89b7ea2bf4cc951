//! Widened regions.

ghost use Rattle.std.specs.Prelude.{◌≡◌, ◌≤◌, true, IfOk};
ghost use Rattle.std.specs.Arc.{arc_value};
ghost use Rattle.ass_num.specs.Limits.{IsRegionWithin, max_sample};
ghost use Rattle.mask_keys.specs.Keys.{max_border};
ghost use Rattle.mask_keys.specs.Regions.{widened_region};
ghost use Rattle.sample_region.specs.Limits.{max_inside};

use ass_num::{Mem, Region};
use border_region::widened;
use mask_keys::RegionKey;
use std::alloc::Global;
use std::sync::Arc;

/// The region of an outline, whose samples lie within 65,536 of 0, widened by the radii of a border.
pub fn made_border(alloc: Global, region: &Region, rx: u32, ry: u32) -> Mem<Region>
    requires within { IsRegionWithin max_inside region.now.top region.now.rows }
    requires rx { rx ≤ max_border }
    requires ry { ry ≤ max_border }
    ensures value { IfOk result (λ r. r ≡ widened_region rx ry region.now) }
    ensures within { IfOk result (λ r. IsRegionWithin max_sample r.top r.rows) }
{
    widened(alloc, region, rx, ry)
}

/// The region of a key, widened from that of its outline, whose samples lie within 65,536 of 0.
pub fn border_from(alloc: Global, outline: &Region, key: &RegionKey) -> Mem<Arc<Region>>
    requires outline { IsRegionWithin max_inside outline.now.top outline.now.rows }
    requires rx { key.now.rx ≤ max_border }
    requires ry { key.now.ry ≤ max_border }
    ensures { IfOk result (λ a. arc_value a ≡ widened_region key.now.rx key.now.ry outline.now) }
{
    let region = made_border(alloc, outline, key.rx, key.ry)?;
    Ok(Arc::new(alloc, region)?)
}
