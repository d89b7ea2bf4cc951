//! The flex operators, each of which draws two curves.

ghost use Rattle.std.specs.Prelude.{◌≡◌};
ghost use Rattle.cff_font.specs.Strokes.{curve_by, level_flex, closed_flex, free_flex};

use crate::strokes::{end_of_steps, last_step, point_behind};
use ass_num::Point;
use outline_points::Stroke;

/// The point that steps are counted from.
const ORIGIN: Point = Point { x: 0, y: 0 };

/// The curves of a flex.
#[derive(Clone, Copy)]
pub struct Flex {
    pub first: Stroke,
    pub second: Stroke,
}

/// A curve by six numbers.
fn curve_by(a: i64, b: i64, c: i64, d: i64, e: i64, f: i64) -> Stroke
    ensures { result ≡ curve_by a b c d e f }
{
    let first = Point { x: a, y: b };
    let second = Point { x: c, y: d };
    let end = Point { x: e, y: f };
    Stroke::Curve(first, second, end)
}

/// The curves of hflex, which begins and ends at one height.
pub fn level_flex(operands: &[i64]) -> Option<Flex>
    ensures { result ≡ level_flex operands.now }
{
    let [a, b, c, d, e, f, g] = operands else {
        return None;
    };
    match point_behind(ORIGIN, Point { x: *b, y: *c }) {
        Some(far) => Some(Flex {
            first: curve_by(*a, 0, *b, *c, *d, 0),
            second: curve_by(*e, 0, *f, -far.y, *g, 0),
        }),
        None => None,
    }
}

/// The curves of hflex1, which ends at the height where it began.
pub fn closed_flex(operands: &[i64]) -> Option<Flex>
    ensures { result ≡ closed_flex operands.now }
{
    let [a, b, c, d, e, f, g, h, i] = operands else {
        return None;
    };
    match end_of_steps(ORIGIN, [*a, *b, *c, *d, *g, *h].as_slice()) {
        Some(far) => Some(Flex {
            first: curve_by(*a, *b, *c, *d, *e, 0),
            second: curve_by(*f, 0, *g, *h, *i, -far.y),
        }),
        None => None,
    }
}

/// The curves of flex1, whose last step is a number along one axis and goes back across it.
pub fn free_flex(operands: &[i64]) -> Option<Flex>
    ensures { result ≡ free_flex operands.now }
{
    let [a, b, c, d, e, f, g, h, i, j, last] = operands else {
        return None;
    };
    match end_of_steps(ORIGIN, &operands[..10]) {
        Some(far) => Some(Flex {
            first: curve_by(*a, *b, *c, *d, *e, *f),
            second: Stroke::Curve(
                Point { x: *g, y: *h },
                Point { x: *i, y: *j },
                last_step(far, *last),
            ),
        }),
        None => None,
    }
}
