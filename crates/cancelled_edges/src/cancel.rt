//! Outlines without edges that cancel.

ghost use Rattle.std.specs.Prelude.{◌≡◌, ℤ, IfOk};
ghost use Rattle.ass_num.specs.Limits.{IsOutline};
ghost use Rattle.ass_num.specs.Winding.{winding};
ghost use Rattle.cancelled_edges.specs.Cancelling.{IsCancelled};

use crate::edges::uncancelled_edges;
use crate::rings::rings_of;
use ass_num::{Mem, Outline};
use std::alloc::Global;

/// The outline of the edges that are left when each has cancelled an opposite one. Its rings walk along the boundary.
pub fn cancelled(alloc: Global, outline: &Outline) -> Mem<Outline>
    ensures edges { IfOk result (λ o. IsCancelled outline.now.rings o.rings) }
    ensures winding { IfOk result (λ o. (i j : ℤ) → winding o.rings i j ≡ winding outline.now.rings i j) }
    ensures within { IfOk result (λ o. IsOutline outline.now.rings → IsOutline o.rings) }
{
    let edges = uncancelled_edges(alloc, outline)?;
    let rings = rings_of(alloc, edges)?;
    Ok(Outline { rings })
}
