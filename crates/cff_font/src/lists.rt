//! Lists that lose items.

ghost use Rattle.std.specs.Prelude.{◌≡◌, take};

use ass_num::Items;

/// The first items of a list.
pub fn first_items<T: Drop>(list: Items<T>, count: usize) -> Items<T>
    ensures { result ≡ take count list }
{
    let mut items = list.into_vec();
    items.truncate(count);
    Items::from_vec(items)
}
