//! The half widths of an ellipse from its first row to its last.

ghost use Rattle.std.specs.Prelude.{IfOk};
ghost use Rattle.border_region.specs.Ellipse.{AreFalling};
ghost use Rattle.border_region.specs.Reach.{IsProfileOf, IsRowAt};

use ass_num::Mem;
use std::alloc::Global;

/// How many rows row p lies from the middle one.
fn rows_from(middle: usize, p: usize) -> usize
    ensures { IsRowAt middle result p }
{
    if p < middle { middle - p } else { p - middle }
}

/// The half widths in the middle row and in the rows below it, put on both sides of the middle.
pub fn profile_of(alloc: Global, widths: &[u16]) -> Mem<Vec<i32>>
    requires { AreFalling widths.now }
    ensures { IfOk result (λ profile. IsProfileOf widths.now profile.items) }
{
    let middle = widths.len() - 1;
    let mut profile = Vec::new(alloc);
    for p in 0..2 * middle + 1 {
        profile.push(i32::from(widths[rows_from(middle, p)]))?;
    }
    Ok(profile)
}
