//! The value of a key, made from the fonts alone.
ghost use Rattle.std.specs.Prelude.{◌≡◌, All, IfOk, map};
ghost use Rattle.std.specs.Arc.{arc_value};
ghost use Rattle.made_values.specs.Parts.{masks_of};
ghost use Rattle.mask_keys.specs.Keys.{IsValidComposite, IsValidMask, IsValidPart, IsValidRegion};
ghost use Rattle.mask_keys.specs.Outlines.{IsFontSet, glyph_counts};
ghost use Rattle.mask_keys.specs.Values.{composite_value, mask_value, region_value};
ghost use Rattle.world_core.specs.Keys.{IsValidWorldKey, world_value};

use crate::world_keys::{WorldKey, WorldValue};
use ass_num::{Mask, Mem, Region};
use bdf_font::FontSet;
use made_values::{made_border, made_composite, made_mask, made_outline};
use mask_keys::{CompositeKey, MaskKey, Part, RegionKey};
use std::alloc::Global;
use std::sync::Arc;

fn region_made(alloc: Global, fonts: &FontSet, key: &RegionKey) -> Mem<Region>
    requires fonts { IsFontSet fonts.now.fonts }
    requires key { IsValidRegion (glyph_counts fonts.now.fonts) key.now }
    ensures { IfOk result (λ r. r ≡ region_value fonts.now.fonts key.now) }
{
    let outline = made_outline(alloc, fonts, &key.outline)?;
    made_border(alloc, &outline, key.rx, key.ry)
}

fn mask_made(alloc: Global, fonts: &FontSet, key: &MaskKey) -> Mem<Mask>
    requires fonts { IsFontSet fonts.now.fonts }
    requires key { IsValidMask (glyph_counts fonts.now.fonts) key.now }
    ensures { IfOk result (λ m. m ≡ mask_value fonts.now.fonts key.now) }
{
    let outline = made_outline(alloc, fonts, &key.outline)?;
    made_mask(alloc, &outline, key)
}

/// The masks of parts, in their order.
fn masks_made(alloc: Global, fonts: &FontSet, parts: &[Part]) -> Mem<Vec<Arc<Mask>>>
    requires fonts { IsFontSet fonts.now.fonts }
    requires parts { All (IsValidPart (glyph_counts fonts.now.fonts)) parts.now }
    ensures { IfOk result (λ masks. map arc_value masks.items ≡ masks_of fonts.now.fonts parts.now) }
{
    let mut masks = Vec::with_capacity(alloc, parts.len())?;
    for part in parts {
        let mask = mask_made(alloc, fonts, &part.mask)?;
        masks.push(Arc::new(alloc, mask)?)?;
    }
    Ok(masks)
}

fn composite_made(alloc: Global, fonts: &FontSet, key: &CompositeKey) -> Mem<Mask>
    requires fonts { IsFontSet fonts.now.fonts }
    requires key { IsValidComposite (glyph_counts fonts.now.fonts) key.now }
    ensures { IfOk result (λ m. m ≡ composite_value fonts.now.fonts key.now) }
{
    let parts = key.parts.as_slice();
    let masks = masks_made(alloc, fonts, parts)?;
    let shared = made_composite(alloc, parts, &masks)?;
    mask_copy(alloc, &shared)
}

fn mask_copy(alloc: Global, mask: &Mask) -> Mem<Mask>
    ensures { IfOk result (λ m. m ≡ mask.now) }
{
    let bytes = Vec::from_slice(alloc, mask.bytes())?;
    Ok(Mask::new(mask.x(), mask.y(), mask.w(), mask.h(), bytes))
}

/// The value of a key.
pub fn made_value(alloc: Global, fonts: &FontSet, key: &WorldKey) -> Mem<WorldValue>
    requires fonts { IsFontSet fonts.now.fonts }
    requires key { IsValidWorldKey (glyph_counts fonts.now.fonts) key.now }
    ensures { IfOk result (λ v. v ≡ world_value fonts.now.fonts key.now) }
{
    match key {
        WorldKey::Outline(key) => Ok(WorldValue::Region(region_made(alloc, fonts, key)?)),
        WorldKey::Mask(key) => Ok(WorldValue::Mask(mask_made(alloc, fonts, key)?)),
        WorldKey::Composite(key) => Ok(WorldValue::Mask(composite_made(alloc, fonts, key)?)),
    }
}
