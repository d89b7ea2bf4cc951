//! Outlines: rings between slashes, points between blanks.

ghost use Rattle.std.specs.Prelude.{IfOk, All, OnOk};
ghost use Rattle.ass_num.specs.Limits.{IsOutline, IsOutlinePoint};

use ass_num::{FlatLists, Mem, Outline, Point};
use std::alloc::Global;

fn number(word: &str) -> i16 {
    word.parse::<i16>().unwrap_or(0)
}

fn point(word: &str) -> Point
    ensures { IsOutlinePoint result }
{
    let (x, y) = word.split_once(',').unwrap_or(("", ""));
    Point {
        x: i64::from(number(x)),
        y: i64::from(number(y)),
    }
}

fn add_ring(alloc: Global, ring: &str, rings: &mut FlatLists<Point>) -> Mem<()>
    requires { IsOutline rings.old }
    ensures { OnOk result (IsOutline rings.new) }
{
    let mut points = Vec::new(alloc);
    for word in ring.split_whitespace() {
        points.push(point(word))?;
    }
    rings.push(points.as_slice())?;
    Ok(())
}

/// The outline of rings.
pub fn outline_of(alloc: Global, text: &str) -> Mem<Outline>
    ensures { IfOk result (λ outline. IsOutline outline.rings) }
{
    let mut rings = FlatLists::new(alloc);
    for ring in text.split('/') {
        add_ring(alloc, ring, &mut rings)?;
    }
    Ok(Outline { rings })
}
