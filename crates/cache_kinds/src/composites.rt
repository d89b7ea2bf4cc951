//! The numbers of composites' keys.

ghost use Rattle.std.specs.Prelude.{◌≡◌, flat_map};
ghost use Rattle.flight_cache.specs.Meaning.{mixed_all};
ghost use Rattle.mask_keys.specs.Numbers.{composite_numbers, part_numbers};

use crate::masks::add_mask_numbers;
use crate::words::{add_length, add_word};
use flight_cache::ShardSum;
use mask_keys::{CompositeKey, Part};

fn add_part(part: &Part, sum: &mut ShardSum)
    ensures { sum.new ≡ mixed_all sum.old (part_numbers part.now) }
{
    add_mask_numbers(&part.mask, sum);
    add_word(i64::from(part.dx), sum);
    add_word(i64::from(part.dy), sum);
}

fn add_parts(parts: &[Part], sum: &mut ShardSum)
    ensures { sum.new ≡ mixed_all sum.old (flat_map part_numbers parts.now) }
{
    for part in parts {
        add_part(part, sum);
    }
}

/// Adds the numbers of a composite's key, one after another.
pub fn add_composite_numbers(key: &CompositeKey, sum: &mut ShardSum)
    ensures { sum.new ≡ mixed_all sum.old (composite_numbers key.now) }
{
    add_length(key.parts.as_slice(), sum);
    add_parts(key.parts.as_slice(), sum);
}
