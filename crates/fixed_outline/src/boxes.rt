//! Outlines of boxes.

ghost use Rattle.std.specs.Prelude.{◌≡◌, ◌∷◌, [], IfOk};
ghost use Rattle.ass_num.specs.Limits.{IsOutline, IsWithin};
ghost use Rattle.outline_points.specs.Limits.{max_length};
ghost use Rattle.outline_points.specs.Boxes.{box_ring};

use ass_num::{Fix, FlatLists, Mem, Milli, Outline, Point};
use outline_points::Turn;
use std::alloc::Global;

/// The outline of a box of these sides, turned about its upper left corner.
pub fn box_outline(alloc: Global, w: Fix, h: Fix, turn: Milli) -> Mem<Outline>
    requires w { IsWithin max_length w }
    requires h { IsWithin max_length h }
    ensures value { IfOk result (λ o. o.rings ≡ box_ring w h turn ∷ []) }
    ensures within { IfOk result (λ o. IsOutline o.rings) }
{
    let turn = Turn::new(turn);
    let corners = [
        turn.outline_point(Point { x: 0, y: 0 }),
        turn.outline_point(Point { x: w, y: 0 }),
        turn.outline_point(Point { x: w, y: h }),
        turn.outline_point(Point { x: 0, y: h }),
    ];
    let mut rings = FlatLists::new(alloc);
    rings.push(&corners)?;
    Ok(Outline { rings })
}
