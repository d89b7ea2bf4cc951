//! Pictures.

ghost use Rattle.std.specs.Prelude.{◌≡◌, ◌<◌, ◌≤◌, List, All, length, map, IfOk};
ghost use Rattle.std.specs.Arc.{arc_value};
ghost use Rattle.ass_events.specs.Histories.{Entry, HaveOwnOrders, IsHistory, live, max_live};
ghost use Rattle.ass_events.specs.Ranges.{IsEvent};
ghost use Rattle.ass_events.specs.declared.event.Event.{Event};
ghost use Rattle.ass_num.specs.Limits.{IsFrameSize, IsWithin, max_instant, max_text_bytes};
ghost use Rattle.mask_keys.specs.Keys.{IsValidPlan};
ghost use Rattle.mask_keys.specs.Outlines.{glyph_counts};
ghost use Rattle.mask_keys.specs.Pictures.{picture};
ghost use Rattle.near_events.specs.Spans.{AreNearSpans};
ghost use Rattle.frame_view.specs.FrameViews.{IsFrameView, plain_frame};
ghost use Rattle.picture_plan.specs.Pictures.{AreDraws, IsPictureAt};
ghost use Rattle.track_history.specs.Answers.{IsSceneOf};

use crate::player::Player;
use ass_events::Event;
use ass_num::{Mem, Size};
use blend::Canvas;
use frame_view::FrameView;
use mask_keys::Plan;
use near_events::EventSpan;
use picture_plan::{laws, plan_of_spans};
use std::alloc::Global;
use std::sync::Arc;
use text_layout::Setting;
use track_history::Scene;

impl Player {
    /// The draws of events that matter at an instant, of which the spans are known.
    fn plan_with(
        &self,
        alloc: Global,
        events: &[Arc<Event>],
        spans: &[EventSpan],
        t: i64,
        frame: &FrameView,
    ) -> Mem<Plan>
        requires fonts { 0 < length self.now.fonts }
        requires events { All IsEvent (map arc_value events.now) }
        requires texts { All (λ (e : Event). length e.text ≤ max_text_bytes) (map arc_value events.now) }
        requires few { length events.now ≤ max_live }
        requires orders { HaveOwnOrders (map arc_value events.now) }
        requires spans { AreNearSpans (map arc_value events.now) t spans.now }
        requires instant { IsWithin max_instant t }
        requires frame { IsFrameView frame.now }
        ensures draws { IfOk result (λ plan. AreDraws self.now.script self.now.fonts (map arc_value events.now) t frame.now plan.draws) }
        ensures valid { IfOk result (λ plan. IsValidPlan (glyph_counts self.now.fonts) plan.draws) }
    {
        let setting = Setting {
            script: &self.script,
            fonts: &self.fonts,
            frame: *frame,
        };
        plan_of_spans(alloc, &setting, events, spans, t)
    }

    /// The draws of what the live events show at an instant.
    pub(crate) fn plan_at(&self, alloc: Global, t: i64, frame: &FrameView) -> Mem<Plan>
        requires fonts { 0 < length self.now.fonts }
        requires instant { IsWithin max_instant t }
        requires frame { IsFrameView frame.now }
        ensures draws { IfOk result (λ plan. AreDraws self.now.script self.now.fonts self.now.track.events t frame.now plan.draws) }
        ensures valid { IfOk result (λ plan. IsValidPlan (glyph_counts self.now.fonts) plan.draws) }
    {
        laws::near_events_draw();
        let near = self.track.near(alloc, t)?;
        let spans = near.spans.as_slice();
        self.plan_with(alloc, near.events.as_slice(), spans, t, frame)
    }

    /// The draws of what a look at a track shows.
    pub(crate) fn plan_of(&self, alloc: Global, scene: &Scene, frame: &FrameView) -> Mem<Plan>
        requires fonts { 0 < length self.now.fonts }
        requires scene { (history : List Entry) × IsHistory history × IsSceneOf history scene.now.t scene.now }
        requires instant { IsWithin max_instant scene.now.t }
        requires frame { IsFrameView frame.now }
        ensures draws { (history : List Entry) → IsSceneOf history scene.now.t scene.now
            → IfOk result (λ plan. AreDraws self.now.script self.now.fonts (live history) scene.now.t frame.now plan.draws) }
        ensures valid { IfOk result (λ plan. IsValidPlan (glyph_counts self.now.fonts) plan.draws) }
    {
        let spans = scene.spans.as_slice();
        self.plan_with(alloc, scene.events.as_slice(), spans, scene.t, frame)
    }

    /// The picture of a plan.
    fn draw_plan(&mut self, alloc: Global, plan: &Plan, size: &Size) -> Mem<Canvas>
        requires plan { IsValidPlan (glyph_counts self.old.fonts) plan.now.draws }
        requires size { IsFrameSize size.now }
        ensures picture { IfOk result (λ canvas. canvas ≡ picture self.old.fonts size.now plan.now.draws) }
        ensures width { IfOk result (λ canvas. canvas.w ≡ size.now.w) }
        ensures height { IfOk result (λ canvas. canvas.h ≡ size.now.h) }
        ensures same { self.new ≡ self.old }
    {
        let mut canvas = Canvas::new(alloc, size)?;
        self.local.paint(alloc, plan, &mut canvas)?;
        Ok(canvas)
    }

    /// The picture of what a look at a track shows, in a frame as the script sees it.
    pub fn draw_scene(&mut self, alloc: Global, scene: &Scene, frame: &FrameView) -> Mem<Canvas>
        requires fonts { 0 < length self.old.fonts }
        requires scene { (history : List Entry) × IsHistory history × IsSceneOf history scene.now.t scene.now }
        requires instant { IsWithin max_instant scene.now.t }
        requires frame { IsFrameView frame.now }
        ensures picture { (history : List Entry) → IsSceneOf history scene.now.t scene.now
            → IfOk result (IsPictureAt self.old.script self.old.fonts (live history) scene.now.t frame.now) }
        ensures width { IfOk result (λ canvas. canvas.w ≡ frame.now.size.w) }
        ensures height { IfOk result (λ canvas. canvas.h ≡ frame.now.size.h) }
        ensures same { self.new ≡ self.old }
    {
        let plan = self.plan_of(alloc, scene, frame)?;
        self.draw_plan(alloc, &plan, &frame.size)
    }

    /// The picture that the live events show at an instant, in milliseconds, in a frame as the script sees it. Whatever the
    /// caches keep and whatever was drawn before, it is the same.
    pub fn draw_in(&mut self, alloc: Global, t: i64, frame: &FrameView) -> Mem<Canvas>
        requires fonts { 0 < length self.old.fonts }
        requires instant { IsWithin max_instant t }
        requires frame { IsFrameView frame.now }
        ensures picture { IfOk result (IsPictureAt self.old.script self.old.fonts self.old.track.events t frame.now) }
        ensures width { IfOk result (λ canvas. canvas.w ≡ frame.now.size.w) }
        ensures height { IfOk result (λ canvas. canvas.h ≡ frame.now.size.h) }
        ensures same { self.new ≡ self.old }
    {
        let plan = self.plan_at(alloc, t, frame)?;
        self.draw_plan(alloc, &plan, &frame.size)
    }

    /// The same in a frame of which the size alone is known.
    pub fn draw(&mut self, alloc: Global, t: i64, size: &Size) -> Mem<Canvas>
        requires fonts { 0 < length self.old.fonts }
        requires instant { IsWithin max_instant t }
        requires size { IsFrameSize size.now }
        ensures picture { IfOk result (IsPictureAt self.old.script self.old.fonts self.old.track.events t (plain_frame size.now)) }
        ensures width { IfOk result (λ canvas. canvas.w ≡ size.now.w) }
        ensures height { IfOk result (λ canvas. canvas.h ≡ size.now.h) }
        ensures same { self.new ≡ self.old }
    {
        self.draw_in(alloc, t, &FrameView::plain(*size))
    }
}
