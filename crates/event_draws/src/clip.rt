//! The clip of an event's draws.

ghost use Rattle.std.specs.Prelude.{◌≡◌, ◌≤◌, IfOk, IfSome};
ghost use Rattle.ass_num.specs.Limits.{IsHeldNumber, IsWithin};
ghost use Rattle.draw_numbers.specs.Clips.{clip_bound};
ghost use Rattle.draw_numbers.specs.Limits.{max_bound};
ghost use Rattle.frame_view.specs.FrameScales.{IsScales};
ghost use Rattle.override_tags.specs.Limits.{max_tag_scale};
ghost use Rattle.override_tags.specs.Ranges.{AreCorners, IsClip};
ghost use Rattle.event_draws.specs.Clips.{clip_by, drawn_clip_key, rect_clip};

use ass_num::{Items, Mem, Milli, Path};
use draw_numbers::clip_bound;
use frame_view::Scales;
use mask_keys::{Clip, CompositeKey, MaskKey, OutlineKey, Part, Shared};
use override_tags::ClipTag;
use std::alloc::Global;
use text_layout::clip_matrix;

/// A copy of a path.
#[tactic(auto, using(tag_state::proofs::Copies::path_same))]
pub(crate) fn path_copy(alloc: Global, path: &Path) -> Mem<Path>
    ensures { IfOk result (λ copy. copy ≡ path.now) }
{
    Ok(path.clone()?)
}

/// A copy of a clip.
#[tactic(auto, using(crate::proofs::Copies::clip_same))]
pub(crate) fn clip_copy(alloc: Global, clip: &Clip) -> Mem<Clip>
    ensures { IfOk result (λ copy. copy ≡ clip.now) }
{
    Ok(clip.clone()?)
}

/// The mask of a drawn clip: one part at the ground's corner.
fn drawn_clip_key(alloc: Global, scales: &Scales, path: &Path, level: u32) -> Mem<CompositeKey>
    requires scales { IsScales scales.now }
    requires level { level ≤ max_tag_scale }
    ensures { IfOk result (λ key. key ≡ drawn_clip_key scales.now path.now level) }
{
    let outline = OutlineKey::Drawing {
        path: Shared::new(alloc, path_copy(alloc, path)?)?,
        m: clip_matrix(scales, level),
        shift: 0,
    };
    let mask = MaskKey {
        outline,
        rx: 0,
        ry: 0,
        px: 0,
        py: 0,
        edges: 0,
        blur: 0,
    };
    let mut parts = Items::with_capacity(alloc, 1)?;
    parts.push(Part { mask, dx: 0, dy: 0 })?;
    Ok(CompositeKey { parts })
}

/// The column of the frame at a coordinate across the script.
fn clip_column(scales: &Scales, coordinate: Milli) -> i32
    requires scales { IsScales scales.now }
    requires coordinate { IsHeldNumber coordinate }
    ensures value { result ≡ clip_bound scales.now.ground_rect.left coordinate scales.now.canvas.x }
    ensures within { IsWithin max_bound result }
{
    clip_bound(scales.ground_rect.left, coordinate, scales.canvas.x)
}

/// The row of the frame at a coordinate down the script.
fn clip_row(scales: &Scales, coordinate: Milli) -> i32
    requires scales { IsScales scales.now }
    requires coordinate { IsHeldNumber coordinate }
    ensures value { result ≡ clip_bound scales.now.ground_rect.top coordinate scales.now.canvas.y }
    ensures within { IsWithin max_bound result }
{
    clip_bound(scales.ground_rect.top, coordinate, scales.canvas.y)
}

/// The clip by a rectangle whose left, top, right and bottom are in thousandths of script pixels.
fn rect_clip(scales: &Scales, corners: [Milli; 4], inverse: bool) -> Clip
    requires scales { IsScales scales.now }
    requires corners { AreCorners corners }
    ensures { result ≡ rect_clip scales.now corners inverse }
{
    Clip::Rect {
        x1: clip_column(scales, corners[0]),
        y1: clip_row(scales, corners[1]),
        x2: clip_column(scales, corners[2]),
        y2: clip_row(scales, corners[3]),
        inverse,
    }
}

/// The clip of an event (Aegisub tag reference, "\clip", "\iclip").
pub(crate) fn clip_of(alloc: Global, scales: &Scales, clip: &Option<ClipTag>) -> Mem<Clip>
    requires scales { IsScales scales.now }
    requires clip { IfSome clip.now IsClip }
    ensures { IfOk result (λ made. made ≡ clip_by scales.now clip.now) }
{
    match clip {
        None => Ok(Clip::Free),
        Some(ClipTag::Rect(corners, inverse)) => Ok(rect_clip(scales, *corners, *inverse)),
        Some(ClipTag::Drawn(path, level, inverse)) => {
            let key = drawn_clip_key(alloc, scales, path, *level)?;
            Ok(Clip::Drawn {
                key: Shared::new(alloc, key)?,
                x: scales.ground_rect.left,
                y: scales.ground_rect.top,
                inverse: *inverse,
            })
        }
    }
}
