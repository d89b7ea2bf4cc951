//! Painting plans.
ghost use Rattle.std.specs.Prelude.{◌≡◌, OnErr, OnOk, fold};
ghost use Rattle.mask_keys.specs.Keys.{IsValidDraw, IsValidPlan};
ghost use Rattle.mask_keys.specs.Outlines.{glyph_counts};
ghost use Rattle.mask_keys.specs.Pictures.{with_draw};
ghost use Rattle.local_caches.specs.LocalParts.{AreAtRest};
ghost use Rattle.local_caches.specs.Painting.{IsFrontPainted};

use crate::local::LocalCaches;
use ass_num::Mem;
use blend::Canvas;
use mask_keys::{Draw, Plan};
use std::alloc::Global;

impl LocalCaches {
    /// Paints a plan whose keys are valid: each draw with the masks of its keys, in order. What the caches haven't is made,
    /// and kept as far as the budget goes. After out of memory some of the draws are painted, from the first on, each whole.
    pub fn paint(&mut self, alloc: Global, plan: &Plan, canvas: &mut Canvas) -> Mem<()>
        requires { IsValidPlan (glyph_counts self.old.fonts) plan.now.draws }
        ensures painted { OnOk result (canvas.new ≡ fold (with_draw self.old.fonts) canvas.old plan.now.draws) }
        ensures refused { OnErr result (IsFrontPainted self.old.fonts plan.now.draws canvas.old canvas.new) }
        ensures fonts { self.new.fonts ≡ self.old.fonts }
        ensures budget { self.new.budget ≡ self.old.budget }
        ensures rest { AreAtRest self.new }
    {
        let painted = self.paint_draws(alloc, plan.draws.as_slice(), canvas);
        self.proof_at_rest();
        painted
    }

    /// Paints draws, in order.
    fn paint_draws(&mut self, alloc: Global, draws: &[Draw], canvas: &mut Canvas) -> Mem<()>
        requires { IsValidPlan (glyph_counts self.old.fonts) draws.now }
        ensures painted { OnOk result (canvas.new ≡ fold (with_draw self.old.fonts) canvas.old draws.now) }
        ensures refused { OnErr result (IsFrontPainted self.old.fonts draws.now canvas.old canvas.new) }
        ensures fonts { self.new.fonts ≡ self.old.fonts }
        ensures budget { self.new.budget ≡ self.old.budget }
    {
        for draw in draws {
            self.paint_draw(alloc, draw, canvas)?;
        }
        Ok(())
    }

    /// Paints one draw, or nothing.
    fn paint_draw(&mut self, alloc: Global, draw: &Draw, canvas: &mut Canvas) -> Mem<()>
        requires { IsValidDraw (glyph_counts self.old.fonts) draw.now }
        ensures painted { OnOk result (canvas.new ≡ with_draw self.old.fonts canvas.old draw.now) }
        ensures refused { OnErr result (canvas.new ≡ canvas.old) }
        ensures fonts { self.new.fonts ≡ self.old.fonts }
        ensures budget { self.new.budget ≡ self.old.budget }
    {
        let image = self.image(alloc, draw)?;
        canvas.draw(&image);
        Ok(())
    }
}
