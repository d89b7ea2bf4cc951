//! The values of keys, through the caches of one thread.
ghost use Rattle.std.specs.Prelude.{◌≡◌, All, IfOk, map};
ghost use Rattle.std.specs.Arc.{arc_value};
ghost use Rattle.made_values.specs.Parts.{masks_of};
ghost use Rattle.mask_keys.specs.Keys.{IsValidComposite, IsValidMask, IsValidPart, IsValidRegion};
ghost use Rattle.mask_keys.specs.Outlines.{glyph_counts};
ghost use Rattle.mask_keys.specs.Values.{composite_value, mask_value, region_value};
ghost use Rattle.local_caches.specs.Unwidened.{IsUnwidened};

use crate::local::LocalCaches;
use crate::making::outline_from;
use ass_num::{Mask, Mem, Region};
use made_values::{border_from, made_composite, mask_from};
use mask_keys::{CompositeKey, MaskKey, Part, RegionKey, region_key_of, unwidened};
use std::alloc::Global;
use std::sync::Arc;

impl LocalCaches {
    /// The region of an outline.
    fn outline(&mut self, alloc: Global, key: &RegionKey) -> Mem<Arc<Region>>
        requires key { IsValidRegion (glyph_counts self.old.fonts) key.now }
        requires no_border { IsUnwidened key.now }
        ensures value { IfOk result (λ a. arc_value a ≡ region_value self.old.fonts key.now) }
        ensures fonts { self.new.fonts ≡ self.old.fonts }
        ensures budget { self.new.budget ≡ self.old.budget }
    {
        if let Some(region) = self.regions.find(key)? {
            return Ok(region);
        }
        let region = outline_from(alloc, &self.fonts, key)?;
        self.regions.keep(alloc, key, region)
    }

    /// The region of an outline with a border, made from that of the outline.
    fn widened(&mut self, alloc: Global, key: &RegionKey) -> Mem<Arc<Region>>
        requires key { IsValidRegion (glyph_counts self.old.fonts) key.now }
        ensures value { IfOk result (λ a. arc_value a ≡ region_value self.old.fonts key.now) }
        ensures fonts { self.new.fonts ≡ self.old.fonts }
        ensures budget { self.new.budget ≡ self.old.budget }
    {
        if let Some(region) = self.regions.find(key)? {
            return Ok(region);
        }
        let outline_key = unwidened(alloc, key)?;
        let outline = self.outline(alloc, &outline_key)?;
        let region = border_from(alloc, &outline, key)?;
        self.regions.keep(alloc, key, region)
    }

    /// The region of a key, widened or not.
    fn region(&mut self, alloc: Global, key: &RegionKey) -> Mem<Arc<Region>>
        requires key { IsValidRegion (glyph_counts self.old.fonts) key.now }
        ensures value { IfOk result (λ a. arc_value a ≡ region_value self.old.fonts key.now) }
        ensures fonts { self.new.fonts ≡ self.old.fonts }
        ensures budget { self.new.budget ≡ self.old.budget }
    {
        if key.rx == 0 && key.ry == 0 {
            return self.outline(alloc, key);
        }
        self.widened(alloc, key)
    }

    /// The mask of a key.
    fn mask(&mut self, alloc: Global, key: &MaskKey) -> Mem<Arc<Mask>>
        requires key { IsValidMask (glyph_counts self.old.fonts) key.now }
        ensures value { IfOk result (λ a. arc_value a ≡ mask_value self.old.fonts key.now) }
        ensures fonts { self.new.fonts ≡ self.old.fonts }
        ensures budget { self.new.budget ≡ self.old.budget }
    {
        if let Some(mask) = self.masks.find(key)? {
            return Ok(mask);
        }
        let region_key = region_key_of(alloc, key)?;
        let region = self.region(alloc, &region_key)?;
        let mask = mask_from(alloc, &region, key)?;
        self.masks.keep(alloc, key, mask)
    }

    /// The masks of parts, in their order.
    fn masks_of(&mut self, alloc: Global, parts: &[Part]) -> Mem<Vec<Arc<Mask>>>
        requires { All (IsValidPart (glyph_counts self.old.fonts)) parts.now }
        ensures value { IfOk result (λ masks. map arc_value masks.items ≡ masks_of self.old.fonts parts.now) }
        ensures fonts { self.new.fonts ≡ self.old.fonts }
        ensures budget { self.new.budget ≡ self.old.budget }
    {
        let mut masks = Vec::with_capacity(alloc, parts.len())?;
        for part in parts {
            masks.push(self.mask(alloc, &part.mask)?)?;
        }
        Ok(masks)
    }

    /// The composed mask of a key that is valid. What the caches haven't is made, and kept as far as the budget goes.
    pub fn composite(&mut self, alloc: Global, key: &CompositeKey) -> Mem<Arc<Mask>>
        requires { IsValidComposite (glyph_counts self.old.fonts) key.now }
        ensures value { IfOk result (λ a. arc_value a ≡ composite_value self.old.fonts key.now) }
        ensures fonts { self.new.fonts ≡ self.old.fonts }
        ensures budget { self.new.budget ≡ self.old.budget }
    {
        if let Some(mask) = self.composites.find(key)? {
            return Ok(mask);
        }
        let parts = key.parts.as_slice();
        let masks = self.masks_of(alloc, parts)?;
        let mask = made_composite(alloc, parts, &masks)?;
        self.composites.keep(alloc, key, mask)
    }
}
