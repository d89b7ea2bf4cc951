//! Where an edge crosses a row of samples.

ghost use Rattle.std.specs.Prelude.{◌≡◌, ◌≤ℤ◌, ◌<ℤ◌, ◌*ℤ◌, pos, negsuc};
ghost use Rattle.ass_num.specs.Limits.{IsOutlinePoint};
ghost use Rattle.sample_region.specs.Carried.{cut_number};

use ass_num::Point;

/// A product of numbers within 1,048,576 of 0.
fn multiplied(a: i64, b: i64) -> i64
    requires low_a { negsuc 1048575 ≤ℤ a }
    requires high_a { a ≤ℤ pos 1048576 }
    requires low_b { negsuc 1048575 ≤ℤ b }
    requires high_b { b ≤ℤ pos 1048576 }
    ensures value { result ≡ a *ℤ b }
    ensures low { negsuc 1099511627775 ≤ℤ result }
    ensures high { result ≤ℤ pos 1099511627776 }
{
    a * b
}

/// The number whose quotient by four times its height is the first sample of the row at `y` that the edge from its upper end `a` down to `b`
/// doesn't pass on its right.
pub fn number_of(a: Point, b: Point, y: i64) -> i64
    requires near_a { IsOutlinePoint a }
    requires near_b { IsOutlinePoint b }
    requires above { a.y ≤ℤ y }
    requires below { y <ℤ b.y }
    ensures value { result ≡ cut_number a b y }
    ensures low { negsuc 2199023255552 ≤ℤ result }
    ensures high { result ≤ℤ pos 2199023255552 }
{
    let right = multiplied(b.x - a.x, y - a.y);
    let start = multiplied(a.x + 2, b.y - a.y);
    right + start - 1
}
