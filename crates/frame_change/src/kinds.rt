//! What changed between two plans.

ghost use Rattle.std.specs.Bool.{Decides};
ghost use Rattle.std.specs.Prelude.{◌≡◌, map};
ghost use Rattle.frame_change.specs.Changes.{IsChange, unplaced};

use mask_keys::{Draw, Plan};

/// How the draws of two plans differ.
#[derive(Clone, Copy, Debug, PartialEq, Eq, Hash)]
pub enum ChangeKind {
    /// They don't.
    Same,
    /// Only in where their masks stand on the frame.
    Moved,
    /// In anything else.
    Other,
}

/// How the draws of two plans differ, as `detect_change` of `ass_render_frame` tells it (libass `ass.h`). It takes no memory.
pub fn change(a: &Plan, b: &Plan) -> ChangeKind
    ensures { IsChange result a.now b.now }
{
    if a == b {
        return ChangeKind::Same;
    }
    if are_same_but_moved(a.draws.as_slice(), b.draws.as_slice()) {
        return ChangeKind::Moved;
    }
    ChangeKind::Other
}

/// Whether the draws are equal where their places are left out.
fn are_same_but_moved(a: &[Draw], b: &[Draw]) -> bool
    ensures { Decides result (map unplaced a.now ≡ map unplaced b.now) }
{
    if a.len() != b.len() {
        return false;
    }
    for (i, draw) in a.iter().enumerate() {
        if !is_same_but_moved(draw, &b[i]) {
            return false;
        }
    }
    true
}

/// Whether two draws are equal where their places are left out.
fn is_same_but_moved(a: &Draw, b: &Draw) -> bool
    ensures { Decides result (unplaced a.now ≡ unplaced b.now) }
{
    if a.edge != b.edge {
        return false;
    }
    if !(a.left == b.left) {
        return false;
    }
    if !(a.right == b.right) {
        return false;
    }
    if !(a.clip == b.clip) {
        return false;
    }
    a.key == b.key
}
