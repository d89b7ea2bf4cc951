//! The numbers of the keys of regions and masks.

ghost use Rattle.std.specs.Prelude.{◌≡◌};
ghost use Rattle.flight_cache.specs.Meaning.{mixed_all};
ghost use Rattle.mask_keys.specs.Numbers.{mask_numbers, region_numbers};

use crate::outlines::add_outline_numbers;
use flight_cache::ShardSum;
use mask_keys::{MaskKey, RegionKey};

/// Adds the numbers of a region's key, one after another.
pub fn add_region_numbers(key: &RegionKey, sum: &mut ShardSum)
    ensures { sum.new ≡ mixed_all sum.old (region_numbers key.now) }
{
    if key.rx == 0 && key.ry == 0 {
        add_outline_numbers(&key.outline, sum);
    } else {
        sum.add(3);
        add_outline_numbers(&key.outline, sum);
        sum.add(key.rx);
        sum.add(key.ry);
    }
}

/// Adds the numbers of a mask's key, one after another.
pub fn add_mask_numbers(key: &MaskKey, sum: &mut ShardSum)
    ensures { sum.new ≡ mixed_all sum.old (mask_numbers key.now) }
{
    add_outline_numbers(&key.outline, sum);
    sum.add(key.rx);
    sum.add(key.ry);
    sum.add(u32::from(key.px));
    sum.add(u32::from(key.py));
    sum.add(u32::from(key.edges));
    sum.add(u32::from(key.blur));
}
