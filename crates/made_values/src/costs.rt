//! What values cost in a cache.

ghost use Rattle.std.specs.Prelude.{◌≡◌, min};
ghost use Rattle.mask_keys.specs.Costs.{mask_cost, greatest_cost, region_cost};

use ass_num::{Mask, Region};

/// What each value costs besides its contents.
const BASE_COST: u64 = 64;

/// A cost, held within 32 bits.
fn held(cost: u64) -> u32
    ensures { result ≡ min greatest_cost cost }
{
    cost.min(u64::from(u32::MAX)) as u32
}

/// The cost of a region: 64, 16 for each row and 8 for each run.
pub fn region_cost(region: &Region) -> u32
    ensures { result ≡ region_cost region.now }
{
    let rows = region.rows();
    let runs = rows.all_items().len() as u64;
    let contents = (rows.len() as u64)
        .saturating_mul(16)
        .saturating_add(runs.saturating_mul(8));
    held(contents.saturating_add(BASE_COST))
}

/// The cost of a mask: 64, and 1 for each pixel.
pub fn mask_cost(mask: &Mask) -> u32
    ensures { result ≡ mask_cost mask.now }
{
    held(BASE_COST + u64::from(mask.w()) * u64::from(mask.h()))
}
