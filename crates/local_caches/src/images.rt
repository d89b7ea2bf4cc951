//! The images of draws, through the caches of one thread.
ghost use Rattle.std.specs.Prelude.{◌≡◌, IfOk, map};
ghost use Rattle.std.specs.Arc.{arc_value};
ghost use Rattle.blend.specs.Images.{image_value, stencil_value};
ghost use Rattle.mask_keys.specs.Keys.{IsValidClip, IsValidDraw, IsValidPlan};
ghost use Rattle.mask_keys.specs.Outlines.{glyph_counts};
ghost use Rattle.mask_keys.specs.Pictures.{image_of_draw, stencil_of};

use crate::local::LocalCaches;
use ass_num::{Mask, Mem};
use blend::{Image, Stencil};
use mask_keys::{Clip, Draw};
use std::alloc::Global;
use std::sync::Arc;

impl LocalCaches {
    /// A clip as a stencil, with the mask of its key where it is a drawn one.
    fn stencil(&mut self, alloc: Global, clip: &Clip) -> Mem<Stencil<Arc<Mask>>>
        requires { IsValidClip (glyph_counts self.old.fonts) clip.now }
        ensures value { IfOk result (λ stencil. stencil_value arc_value stencil ≡ stencil_of self.old.fonts clip.now) }
        ensures fonts { self.new.fonts ≡ self.old.fonts }
        ensures budget { self.new.budget ≡ self.old.budget }
    {
        match clip {
            Clip::Free => Ok(Stencil::Free),
            Clip::Rect {
                x1,
                y1,
                x2,
                y2,
                inverse,
            } => Ok(Stencil::Rect {
                x1: *x1,
                y1: *y1,
                x2: *x2,
                y2: *y2,
                inverse: *inverse,
            }),
            Clip::Drawn { key, x, y, inverse } => Ok(Stencil::Drawn {
                mask: self.composite(alloc, key)?,
                x: *x,
                y: *y,
                inverse: *inverse,
            }),
        }
    }

    /// The image of a draw whose keys are valid, with their masks. What the caches haven't is made, and kept as far as the
    /// budget goes.
    pub fn image(&mut self, alloc: Global, draw: &Draw) -> Mem<Image<Arc<Mask>>>
        requires { IsValidDraw (glyph_counts self.old.fonts) draw.now }
        ensures value { IfOk result (λ image. image_value arc_value image ≡ image_of_draw self.old.fonts draw.now) }
        ensures fonts { self.new.fonts ≡ self.old.fonts }
        ensures budget { self.new.budget ≡ self.old.budget }
    {
        let mask = self.composite(alloc, &draw.key)?;
        let stencil = self.stencil(alloc, &draw.clip)?;
        Ok(draw.image(mask, stencil))
    }

    /// The images of draws whose keys are valid, with their masks, in order. All that they have is held at once.
    pub fn images(&mut self, alloc: Global, draws: &[Draw]) -> Mem<Vec<Image<Arc<Mask>>>>
        requires { IsValidPlan (glyph_counts self.old.fonts) draws.now }
        ensures value { IfOk result (λ images. map (image_value arc_value) images.items ≡ map (image_of_draw self.old.fonts) draws.now) }
        ensures fonts { self.new.fonts ≡ self.old.fonts }
        ensures budget { self.new.budget ≡ self.old.budget }
    {
        let mut images = Vec::new(alloc);
        for draw in draws {
            images.push(self.image(alloc, draw)?)?;
        }
        Ok(images)
    }
}
