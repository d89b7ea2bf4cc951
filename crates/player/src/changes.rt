//! How two lists of plain images differ.

ghost use Rattle.std.specs.Bool.{Decides};
ghost use Rattle.std.specs.Prelude.{◌≡◌, map};
ghost use Rattle.player.specs.Changes.{IsListChange, plain_place, unplaced_plain};

use frame_change::ChangeKind;
use plain_images::PlainImage;

/// Whether two plain images are the same where their places are left out.
fn is_same_plain_but_moved(a: &PlainImage, b: &PlainImage) -> bool
    ensures { Decides result (unplaced_plain a.now ≡ unplaced_plain b.now) }
{
    if !(a.colour == b.colour) {
        return false;
    }
    if a.mask.w() != b.mask.w() {
        return false;
    }
    if a.mask.h() != b.mask.h() {
        return false;
    }
    a.mask.bytes() == b.mask.bytes()
}

/// Whether all of them are.
fn are_same_plains_but_moved(a: &[PlainImage], b: &[PlainImage]) -> bool
    ensures { Decides result (map unplaced_plain a.now ≡ map unplaced_plain b.now) }
{
    if a.len() != b.len() {
        return false;
    }
    for (i, one) in a.iter().enumerate() {
        if !is_same_plain_but_moved(one, &b[i]) {
            return false;
        }
    }
    true
}

/// Whether two plain images stand at one place.
fn has_same_place(a: &PlainImage, b: &PlainImage) -> bool
    ensures { Decides result (plain_place a.now ≡ plain_place b.now) }
{
    if a.mask.x() != b.mask.x() {
        return false;
    }
    a.mask.y() == b.mask.y()
}

/// Whether as many plain images stand at the same places.
fn have_same_places(a: &[PlainImage], b: &[PlainImage]) -> bool
    ensures { Decides result (map plain_place a.now ≡ map plain_place b.now) }
{
    if a.len() != b.len() {
        return false;
    }
    for (i, one) in a.iter().enumerate() {
        if !has_same_place(one, &b[i]) {
            return false;
        }
    }
    true
}

/// How two lists of plain images differ, as `detect_change` of `ass_render_frame` tells it (libass `ass.h`).
pub(crate) fn list_change(a: &[PlainImage], b: &[PlainImage]) -> ChangeKind
    ensures { IsListChange result a.now b.now }
{
    if !are_same_plains_but_moved(a, b) {
        return ChangeKind::Other;
    }
    if have_same_places(a, b) {
        return ChangeKind::Same;
    }
    ChangeKind::Moved
}
