//! Reading a mask.

ghost use Rattle.std.specs.Prelude.{◌≡◌, ◌<◌, pos, ◌+ℤ◌, ◌<ℤ◌, ◌≤ℤ◌, ◌⊎◌, IfSome, IfNone};
ghost use Rattle.ass_num.specs.Masks.{value_at};

use ass_num::Mask;

/// The coverage at pixel (x, y), which is 0 outside the mask's box.
pub fn at(mask: &Mask, x: i32, y: i32) -> u8
    ensures { result ≡ value_at mask.now x y }
{
    let Some(i) = place(x, mask.x(), mask.w()) else {
        return 0;
    };
    let Some(j) = place(y, mask.y(), mask.h()) else {
        return 0;
    };
    mask.bytes()[j * mask.w() as usize + i]
}

/// How far `at` lies behind `first`, where it is one of so many places from there on.
fn place(at: i32, first: i32, count: u32) -> Option<usize>
    ensures inside { IfSome result (λ k. (at ≡ first +ℤ pos k) × (k < count)) }
    ensures outside { IfNone result ((at <ℤ first) ⊎ ((first +ℤ pos count) ≤ℤ at)) }
{
    let k = i64::from(at) - i64::from(first);
    if k < 0 || i64::from(count) <= k {
        return None;
    }
    Some(k as usize)
}
