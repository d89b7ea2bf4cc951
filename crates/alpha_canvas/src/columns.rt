//! Which columns of a row a mask or images can paint on.

ghost use Rattle.std.specs.Prelude.{◌≡◌, ◌≤◌, ◌<◌, ◌⊎◌, ◌&&◌, ℕ, pos, nat_le, nat_lt, int_le, int_lt, true, false, map};
ghost use Rattle.ass_num.specs.Limits.{max_frame_side};
ghost use Rattle.blend.specs.Areas.{placed_of, in_moved_box};
ghost use Rattle.blend.specs.Images.{image_value};
ghost use Rattle.alpha_canvas.specs.Alpha.{clear, layers_at};
ghost use Rattle.alpha_canvas.specs.Tiles.{in_moved_columns, in_moved_rows};

use blend::{AsMask, Image, Placed};

/// The columns from `left` on up to but not with `right`: none, where `left` is no less.
#[derive(Clone, Copy)]
pub struct Columns {
    pub left: u32,
    pub right: u32,
}

/// An image's mask at its place.
pub fn placed_mask<M: AsMask>(image: &Image<M>) -> Placed<'_>
    ensures { placed_of result ≡ (M.mask image.now.mask, image.now.x, image.now.y) }
{
    Placed {
        mask: image.mask.as_mask(),
        x: image.x,
        y: image.y,
    }
}

/// The column from `left` to `right` that is nearest to `v`.
fn column_near(v: i64, left: u32, right: u32) -> u32
    requires { left ≤ right }
    ensures low { left ≤ result }
    ensures high { result ≤ right }
    ensures same { (i : ℕ) → left ≤ i → i < right → nat_lt i result ≡ int_lt (pos i) v }
{
    if v <= i64::from(left) {
        left
    } else if v >= i64::from(right) {
        right
    } else {
        v as u32
    }
}

/// Which of these columns lie from `from` on up to but not with `to`.
fn columns_between(from: i64, to: i64, left: u32, right: u32) -> Columns
    requires { left ≤ right }
    ensures bounds { (left ≤ result.left) × (result.left ≤ result.right) × (result.right ≤ right) }
    ensures both { (i : ℕ) → (nat_le result.left i && nat_lt i result.right)
        ≡ ((nat_le left i && nat_lt i right) && (int_le from (pos i) && int_lt (pos i) to)) }
{
    let low = column_near(from, left, right);
    Columns {
        left: low,
        right: column_near(to, low, right),
    }
}

/// Which of these columns lie in those of the box of a placed mask.
fn columns_of_box(placed: Placed<'_>, left: u32, right: u32) -> Columns
    requires { left ≤ right }
    ensures bounds { (left ≤ result.left) × (result.left ≤ result.right) × (result.right ≤ right) }
    ensures both { (i : ℕ) → (nat_le result.left i && nat_lt i result.right)
        ≡ ((nat_le left i && nat_lt i right) && in_moved_columns (placed_of placed.entry) i) }
{
    let from = i64::from(placed.mask.x()) + i64::from(placed.x);
    columns_between(from, from + i64::from(placed.mask.w()), left, right)
}

/// Whether row `j` lies from `from` on up to but not with `to`.
fn is_between(from: i64, to: i64, j: u32) -> bool
    ensures { result ≡ (int_le from (pos j) && int_lt (pos j) to) }
{
    let j = i64::from(j);
    from <= j && j < to
}

/// Whether row `j` lies in those of the box of a placed mask.
fn has_row(placed: Placed<'_>, j: u32) -> bool
    ensures { result ≡ in_moved_rows (placed_of placed.entry) j }
{
    let from = i64::from(placed.mask.y()) + i64::from(placed.y);
    is_between(from, from + i64::from(placed.mask.h()), j)
}

/// Which of these columns the box of a placed mask has in row `j`.
pub fn columns_in_box(placed: Placed<'_>, left: u32, right: u32, j: u32) -> Columns
    requires { left ≤ right }
    ensures bounds { (left ≤ result.left) × (result.right ≤ right) }
    ensures inside { (i : ℕ) → result.left ≤ i → i < result.right → in_moved_box (placed_of placed.entry) i j ≡ true }
    ensures outside { (i : ℕ) → left ≤ i → i < right → (i < result.left) ⊎ (result.right ≤ i) → in_moved_box (placed_of placed.entry) i j ≡ false }
{
    if has_row(placed, j) {
        columns_of_box(placed, left, right)
    } else {
        Columns { left: right, right }
    }
}

/// The columns of both, and what lies between them.
fn joined(a: Columns, b: Columns) -> Columns
    ensures first { (result.left ≤ a.left) × (a.right ≤ result.right) }
    ensures second { (b.right ≤ b.left) ⊎ ((result.left ≤ b.left) × (b.right ≤ result.right)) }
    ensures bound { (n : ℕ) → a.right ≤ n → b.right ≤ n → result.right ≤ n }
{
    if b.left < b.right {
        Columns {
            left: a.left.min(b.left),
            right: a.right.max(b.right),
        }
    } else {
        a
    }
}

/// Columns of row `j` of a picture of width `w` outside of which images paint nothing.
pub fn columns_of_all<M: AsMask>(images: &[Image<M>], w: u32, j: u32) -> Columns
    requires { w ≤ max_frame_side }
    ensures bound { result.right ≤ w }
    ensures clear { (i : ℕ) → i < w → (i < result.left) ⊎ (result.right ≤ i) → layers_at (map (image_value M.mask) images.now) i j ≡ clear }
{
    let mut all = Columns { left: w, right: 0 };
    for image in images {
        let own = columns_in_box(placed_mask(image), 0, w, j);
        all = joined(all, own);
    }
    all
}
