//! Rectangles of pixels, and the rows of a picture that they lie in.

ghost use Rattle.std.specs.Prelude.{◌≡◌, ℕ, ◌≤◌, ◌<◌, pos, ◌&&◌, nat_lt, int_lt};
ghost use Rattle.blend.specs.Blending.{in_rect};
ghost use Rattle.blend.specs.Areas.{in_area, IsPart};

/// The pixels in the columns from `left` and the rows from `top`, without those of the bounds `right` and `bottom`.
#[derive(Clone, Copy)]
pub struct Area {
    pub left: u32,
    pub top: u32,
    pub right: u32,
    pub bottom: u32,
}

/// Rows of a picture that lie one under another: `h` rows of `w` pixels, from row `top` on.
#[derive(Clone, Copy)]
pub struct Band {
    pub w: u32,
    pub top: u32,
    pub h: u32,
}

/// A bound held within two limits: what lies between them is below it exactly where it was before.
pub fn held(v: i64, low: u32, high: u32) -> u32
    requires { low ≤ high }
    ensures low { low ≤ result }
    ensures high { result ≤ high }
    ensures same { (i : ℕ) → low ≤ i → i < high → nat_lt i result ≡ int_lt (pos i) v }
{
    if v <= i64::from(low) {
        low
    } else if v >= i64::from(high) {
        high
    } else {
        v as u32
    }
}

/// The part of an area that lies in a rectangle.
pub fn cut(area: Area, x1: i64, y1: i64, x2: i64, y2: i64) -> Area
    requires columns { area.left ≤ area.right }
    requires rows { area.top ≤ area.bottom }
    ensures part { IsPart result area }
    ensures both { (i j : ℕ) → in_area result i j ≡ (in_area area i j && in_rect x1 y1 x2 y2 (pos i) (pos j)) }
{
    let left = held(x1, area.left, area.right);
    let top = held(y1, area.top, area.bottom);
    Area {
        left,
        top,
        right: held(x2, left, area.right),
        bottom: held(y2, top, area.bottom),
    }
}
