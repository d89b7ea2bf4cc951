//! The picture of a plan, from the values that an actor holds.
ghost use Rattle.std.specs.Prelude.{◌≡◌, ◌≤◌, ◌↔◌, IfNone, IfOk, IfSome, IsFalse, IsTrue, fold, length};
ghost use Rattle.std.specs.Arc.{arc_value};
ghost use Rattle.ass_num.specs.Limits.{IsFrameSize};
ghost use Rattle.ass_num.specs.Masks.{MaskValue};
ghost use Rattle.blend.specs.Blending as blending;
ghost use Rattle.blend.specs.Canvases.{drawn};
ghost use Rattle.blend.specs.Images.{stencil_value};
ghost use Rattle.mask_keys.specs.Pictures.{picture, with_draw};
ghost use Rattle.mask_keys.specs.Values.{composite_value};
ghost use Rattle.world_core.specs.Holdings as holdings;
ghost use Rattle.world_core.specs.Keys.{equal_world_keys, world_shard, world_shards, world_value};
ghost use Rattle.world_core.specs.Replies.{HoldsAll, HoldsClip, HoldsDraw, HoldsMask};
ghost use Rattle.world_core.specs.declared.world_keys.WorldValue.TheVariants as kept;

use crate::{ActorCaches, Holding, WorldKey, WorldMade, WorldValue, world_shard};
use ass_num::{Items, Mask, Mem, Size};
use blend::{Canvas, Stencil};
use mask_keys::{Clip, CompositeKey, Draw, Plan, key_copy};
use std::alloc::Global;
use std::sync::Arc;

/// Whether a pin is the actor's, of a shard's key.
fn is_held_by(pin: &Holding<WorldKey>, actor: u32, shard: usize, key: &WorldKey) -> bool
    ensures { result ≡ holdings.is_held_by equal_world_keys actor shard key.now pin.now }
{
    pin.actor == actor && pin.shard == shard && *key == pin.key
}

/// Whether the actor holds a shard's key.
fn is_held(pins: &[Holding<WorldKey>], actor: u32, shard: usize, key: &WorldKey) -> bool
    ensures some { IsTrue result → 1 ≤ holdings.count_held equal_world_keys actor shard key.now pins.now }
    ensures none { IsFalse result → holdings.count_held equal_world_keys actor shard key.now pins.now ≡ 0 }
{
    for pin in pins {
        if is_held_by(pin, actor, shard, key) {
            return true;
        }
    }
    false
}

/// The value of a key that the actor holds.
fn held_value(
    caches: &ActorCaches<WorldMade>,
    actor: u32,
    key: &WorldKey,
) -> Mem<Option<Arc<WorldValue>>>
    requires { length caches.now.shards ≡ world_shards }
    ensures held { IfOk result (λ o. IfSome o (λ v. 1 ≤ holdings.count_held equal_world_keys actor (world_shard key.now) key.now caches.now.pins)) }
    ensures value { IfOk result (λ o. IfSome o (λ v. arc_value v ≡ world_value (arc_value caches.now.tag).fonts key.now)) }
    ensures none { IfOk result (λ o. IfNone o (holdings.count_held equal_world_keys actor (world_shard key.now) key.now caches.now.pins ≡ 0)) }
{
    let shard = world_shard(key);
    if is_held(caches.pins(), actor, shard, key) {
        caches.proof_histories();
        return caches.value_of(shard, key);
    }
    Ok(None)
}

/// The value of a composed mask that the actor holds.
fn held_mask(
    alloc: Global,
    caches: &ActorCaches<WorldMade>,
    actor: u32,
    key: &CompositeKey,
) -> Mem<Option<Arc<WorldValue>>>
    requires { length caches.now.shards ≡ world_shards }
    ensures held { IfOk result (λ o. IfSome o (λ v. HoldsMask caches.now actor key.now)) }
    ensures value { IfOk result (λ o. IfSome o (λ v. arc_value v ≡ kept.Mask (composite_value (arc_value caches.now.tag).fonts key.now))) }
    ensures none { IfOk result (λ o. IfNone o (HoldsMask caches.now actor key.now → ⊥)) }
{
    let copy = key_copy(alloc, key)?;
    held_value(caches, actor, &WorldKey::Composite(copy))
}

/// Draws a draw with its value, which is a mask, and its clip's stencil at hand.
fn blend_draw(canvas: &mut Canvas, draw: &Draw, value: &WorldValue, stencil: Stencil<&Mask>)
    ensures { (mask : MaskValue) → value.now ≡ kept.Mask mask → canvas.new ≡ drawn canvas.old (record {
      mask = mask;
      x = draw.now.x;
      y = draw.now.y;
      left = draw.now.left;
      right = draw.now.right;
      edge = draw.now.edge;
      stencil = stencil_value (λ over. over.now) stencil.entry;
    }) }
{
    match value {
        WorldValue::Mask(mask) => canvas.draw(&draw.image(mask, stencil)),
        WorldValue::Region(_) => {}
    }
}

/// Draws a draw that a drawn clip cuts, with both values at hand.
fn blend_clipped(
    canvas: &mut Canvas,
    draw: &Draw,
    value: &WorldValue,
    over: &WorldValue,
    x: i32,
    y: i32,
    inverse: bool,
)
    ensures { (mask clip : MaskValue) → value.now ≡ kept.Mask mask → over.now ≡ kept.Mask clip → canvas.new ≡ drawn canvas.old (record {
      mask = mask;
      x = draw.now.x;
      y = draw.now.y;
      left = draw.now.left;
      right = draw.now.right;
      edge = draw.now.edge;
      stencil = blending.Drawn clip x y inverse;
    }) }
{
    match over {
        WorldValue::Mask(mask) => {
            let stencil = Stencil::Drawn {
                mask,
                x,
                y,
                inverse,
            };
            blend_draw(canvas, draw, value, stencil);
        }
        WorldValue::Region(_) => {}
    }
}

/// Draws a draw with its value at hand, or tells that the actor doesn't hold the mask of its clip.
fn paint_value(
    alloc: Global,
    caches: &ActorCaches<WorldMade>,
    actor: u32,
    draw: &Draw,
    value: &WorldValue,
    canvas: &mut Canvas,
) -> Mem<bool>
    requires shards { length caches.now.shards ≡ world_shards }
    requires value { value.now ≡ kept.Mask (composite_value (arc_value caches.now.tag).fonts draw.now.key) }
    ensures held { IfOk result (λ b. IsTrue b ↔ HoldsClip caches.now actor draw.now.clip) }
    ensures painted { IfOk result (λ b. IsTrue b → canvas.new ≡ with_draw (arc_value caches.now.tag).fonts canvas.old draw.now) }
{
    match &draw.clip {
        Clip::Free => {
            blend_draw(canvas, draw, value, Stencil::Free);
            Ok(true)
        }
        Clip::Rect {
            x1,
            y1,
            x2,
            y2,
            inverse,
        } => {
            let stencil = Stencil::Rect {
                x1: *x1,
                y1: *y1,
                x2: *x2,
                y2: *y2,
                inverse: *inverse,
            };
            blend_draw(canvas, draw, value, stencil);
            Ok(true)
        }
        Clip::Drawn { key, x, y, inverse } => {
            let found = held_mask(alloc, caches, actor, key)?;
            match found {
                Some(over) => {
                    blend_clipped(canvas, draw, value, &over, *x, *y, *inverse);
                    Ok(true)
                }
                None => Ok(false),
            }
        }
    }
}

/// Draws one draw, or tells that the actor doesn't hold a mask of it.
fn paint_draw(
    alloc: Global,
    caches: &ActorCaches<WorldMade>,
    actor: u32,
    draw: &Draw,
    canvas: &mut Canvas,
) -> Mem<bool>
    requires { length caches.now.shards ≡ world_shards }
    ensures held { IfOk result (λ b. IsTrue b ↔ HoldsDraw caches.now actor draw.now) }
    ensures painted { IfOk result (λ b. IsTrue b → canvas.new ≡ with_draw (arc_value caches.now.tag).fonts canvas.old draw.now) }
{
    let found = held_mask(alloc, caches, actor, &draw.key)?;
    match found {
        Some(value) => paint_value(alloc, caches, actor, draw, &value, canvas),
        None => Ok(false),
    }
}

/// Paints draws in order, or tells that the actor doesn't hold a mask of them.
fn paint_draws(
    alloc: Global,
    caches: &ActorCaches<WorldMade>,
    actor: u32,
    draws: &[Draw],
    canvas: &mut Canvas,
) -> Mem<bool>
    requires { length caches.now.shards ≡ world_shards }
    ensures held { IfOk result (λ b. IsTrue b ↔ HoldsAll caches.now actor draws.now) }
    ensures painted { IfOk result (λ b. IsTrue b → canvas.new ≡ fold (with_draw (arc_value caches.now.tag).fonts) canvas.old draws.now) }
{
    for draw in draws {
        let drawn = paint_draw(alloc, caches, actor, draw, canvas)?;
        if !drawn {
            return Ok(false);
        }
    }
    Ok(true)
}

/// The pixels of the picture of a plan, or `None` where the actor doesn't hold the composed mask of a draw or of its drawn clip.
pub(crate) fn pixels_of(
    alloc: Global,
    caches: &ActorCaches<WorldMade>,
    actor: u32,
    plan: &Plan,
    size: &Size,
) -> Mem<Option<Items<u8>>>
    requires shards { length caches.now.shards ≡ world_shards }
    requires size { IsFrameSize size.now }
    ensures held { IfOk result (λ o. IfSome o (λ _. HoldsAll caches.now actor plan.now.draws)) }
    ensures pixels { IfOk result (λ o. IfSome o (λ bytes. bytes ≡ (picture (arc_value caches.now.tag).fonts size.now plan.now.draws).bytes)) }
    ensures none { IfOk result (λ o. IfNone o (HoldsAll caches.now actor plan.now.draws → ⊥)) }
{
    let mut canvas = Canvas::new(alloc, size)?;
    let drawn = paint_draws(alloc, caches, actor, plan.draws.as_slice(), &mut canvas)?;
    if !drawn {
        return Ok(None);
    }
    let pixels = Vec::from_slice(alloc, canvas.pixels())?;
    Ok(Some(Items::from_vec(pixels)))
}
