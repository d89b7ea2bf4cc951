//! Masks made ahead of time.
ghost use Rattle.std.specs.Prelude.{◌≡◌, ◌+◌, ◌++◌, [], List, length, All, IfOk, OnOk, None};
ghost use Rattle.ass_events.specs.Histories.{live};
ghost use Rattle.ass_num.specs.Limits.{IsFrameSize, IsWithin, max_instant};
ghost use Rattle.mask_keys.specs.Equality.{equal_composites};
ghost use Rattle.mask_keys.specs.Keys.{IsValidComposite, IsValidPlan};
ghost use Rattle.mask_keys.specs.declared.plans.Draw.{Draw};
ghost use Rattle.mask_keys.specs.Outlines.{glyph_counts};
ghost use Rattle.frame_view.specs.FrameViews.{plain_frame};
ghost use Rattle.picture_plan.specs.Pictures.{AreDraws};
ghost use Rattle.track_history.specs.Calls.{IsTurn, history_of};
ghost use Rattle.turn_cell.specs.Passes.{Follows, IsOf};
ghost use Rattle.mask_keys.specs.PlanKeys.{plan_keys};
ghost use Rattle.mask_caches.specs.Firsts.{firsts};
ghost use Rattle.renderer.specs.Holding.{HoldsTheSame};
ghost use Rattle.renderer.specs.Passes.{IsPassOfRenderer};
ghost use Rattle.renderer.specs.Warming.{ArePlansSeen, IsWarmed, keys_ahead};

use crate::passes::RenderPass;
use crate::renderer::Renderer;
use ass_num::{Mem, Size};
use mask_caches::{Ahead, Prefetched};
use mask_keys::Plan;
use std::alloc::Global;
use std::sync::Wait;
use test_hook::TestHook;
use track_history::TrackPass;

impl Renderer {
    /// The draws of what the track shows at an instant.
    fn plan_at<R: Wait>(
        &self,
        rt: &R,
        alloc: Global,
        pass: TrackPass,
        t: i64,
        size: &Size,
    ) -> (TrackPass, Mem<Plan>)
        requires pass { IsOf self.now.track pass }
        requires instant { IsWithin max_instant t }
        requires size { IsFrameSize size.now }
        ensures turn { IsTurn pass result.0 None }
        ensures draws { IfOk result.1 (λ plan. AreDraws self.now.script self.now.fonts (live (history_of result.0.seen)) t (plain_frame size.now) plan.draws) }
        ensures valid { IfOk result.1 (λ plan. IsValidPlan (glyph_counts self.now.fonts) plan.draws) }
    {
        let (pass, scene) = self.track.look(rt, alloc, pass, t);
        match scene {
            Ok(scene) => (pass, self.plan_of(alloc, &scene, size)),
            Err(refused) => (pass, Err(refused)),
        }
    }

    /// Adds the keys of what the track shows at an instant.
    fn add_instant<R: Wait>(
        &self,
        rt: &R,
        alloc: Global,
        pass: TrackPass,
        t: i64,
        size: &Size,
        ahead: &mut Ahead,
    ) -> (TrackPass, Mem<usize>)
        requires pass { IsOf self.now.track pass }
        requires instant { IsWithin max_instant t }
        requires size { IsFrameSize size.now }
        requires valid { All (IsValidComposite (glyph_counts self.now.fonts)) ahead.old.keys }
        ensures turn { IsTurn pass result.0 None }
        ensures keys { OnOk result.1 ((plan : List Draw)
            × AreDraws self.now.script self.now.fonts (live (history_of result.0.seen)) t (plain_frame size.now) plan
            × (ahead.new.keys ≡ firsts equal_composites (ahead.old.keys ++ plan_keys plan))) }
        ensures place { ahead.new.place ≡ ahead.old.place }
        ensures valid { All (IsValidComposite (glyph_counts self.now.fonts)) ahead.new.keys }
    {
        let (pass, plan) = self.plan_at(rt, alloc, pass, t, size);
        match plan {
            Ok(plan) => (pass, ahead.add_plan(alloc, &plan)),
            Err(refused) => (pass, Err(refused)),
        }
    }

    /// The keys of what the track shows at some instants, each once.
    fn ahead_at<R: Wait>(
        &self,
        rt: &R,
        alloc: Global,
        pass: TrackPass,
        instants: &[i64],
        size: &Size,
    ) -> (TrackPass, Mem<Ahead>)
        requires pass { IsOf self.now.track pass }
        requires instants { All (IsWithin max_instant) instants.now }
        requires size { IsFrameSize size.now }
        ensures track { Follows pass result.0 [] }
        ensures turns { OnOk result.1 (result.0.turns ≡ pass.turns + length instants.now) }
        ensures keys { IfOk result.1 (λ ahead. (plans : List (List Draw)) × ArePlansSeen self.now size.now pass.seen instants.now plans result.0.seen
            × (ahead ≡ record { keys = keys_ahead plans; place = 0 })) }
        ensures valid { IfOk result.1 (λ ahead. All (IsValidComposite (glyph_counts self.now.fonts)) ahead.keys) }
    {
        let mut ahead = Ahead::open(alloc);
        let mut pass = pass;
        for t in instants {
            let (next, added) = self.add_instant(rt, alloc, pass, *t, size, &mut ahead);
            pass = next;
            if let Err(refused) = added {
                return (pass, Err(refused));
            }
        }
        (pass, Ok(ahead))
    }

    /// Makes the masks that frames of a size want at some instants, in milliseconds, as the track shows them now. Answers how many
    /// different composed masks these are, and which is the first that can't be kept by the budgets of the shards, as their turns
    /// show them: a frame that wants that mask is had by calls that wait, and by `try_frame` while another frame holds the mask.
    /// The pass holds what it held before. It waits as `frame` does. For out of memory it stops at a look, or at the mask that is refused.
    pub fn warm<R: Wait, H: TestHook>(
        &self,
        rt: &R,
        alloc: Global,
        pass: RenderPass,
        instants: &[i64],
        size: &Size,
        hook: &H,
    ) -> (RenderPass, Mem<Prefetched>)
        requires pass { IsPassOfRenderer self.now pass }
        requires instants { All (IsWithin max_instant) instants.now }
        requires size { IsFrameSize size.now }
        ensures pass { IsPassOfRenderer self.now result.0 }
        ensures warmed { IsWarmed self.now pass result.0 instants.now size.now result.1 }
        ensures holds { HoldsTheSame self.now pass result.0 }
    {
        let RenderPass { track, caches } = pass;
        let (track, ahead) = self.ahead_at(rt, alloc, track, instants, size);
        match ahead {
            Ok(ahead) => {
                let mut ahead = ahead;
                let left = ahead.left();
                let (caches, budgets) = self.caches.composite_budgets(rt, caches);
                let (caches, warmed) = ahead.warm(
                    rt,
                    alloc,
                    &self.caches,
                    caches,
                    left,
                    &budgets,
                    hook,
                );
                (RenderPass { track, caches }, warmed)
            }
            Err(refused) => (RenderPass { track, caches }, Err(refused)),
        }
    }
}
