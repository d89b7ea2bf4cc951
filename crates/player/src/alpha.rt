//! Pictures with alpha.

ghost use Rattle.std.specs.Prelude.{◌≡◌, ◌<◌, ◌*◌, List, length, map, IfOk, OnErr, OnOk};
ghost use Rattle.alpha_canvas.specs.Alpha.{AreAlphaRows};
ghost use Rattle.ass_events.specs.Histories.{Entry, IsHistory, live};
ghost use Rattle.ass_num.specs.Limits.{IsFrameSize, IsWithin, max_instant};
ghost use Rattle.mask_keys.specs.Keys.{IsValidPlan};
ghost use Rattle.mask_keys.specs.Outlines.{glyph_counts};
ghost use Rattle.mask_keys.specs.Pictures.{image_of_draw};
ghost use Rattle.frame_view.specs.FrameViews.{IsFrameView, plain_frame};
ghost use Rattle.picture_plan.specs.AlphaPictures.{IsAlphaPictureAt};
ghost use Rattle.track_history.specs.Answers.{IsSceneOf};

use crate::player::Player;
use alpha_canvas::{AlphaForm, paint_alpha_rows};
use ass_num::{Mem, Size};
use frame_view::FrameView;
use mask_keys::Plan;
use std::alloc::Global;
use track_history::Scene;

impl Player {
    /// Paints a plan over nothing.
    fn paint_over_nothing(
        &mut self,
        alloc: Global,
        plan: &Plan,
        size: &Size,
        form: AlphaForm,
        bytes: &mut [u8],
    ) -> Mem<()>
        requires plan { IsValidPlan (glyph_counts self.old.fonts) plan.now.draws }
        requires size { IsFrameSize size.now }
        requires bytes { length bytes.old ≡ 4 * (size.now.h * size.now.w) }
        ensures picture { OnOk result (AreAlphaRows form (map (image_of_draw self.old.fonts) plan.now.draws) size.now.w 0 size.now.h bytes.new) }
        ensures err { OnErr result (bytes.new ≡ bytes.old) }
        ensures same { self.new ≡ self.old }
    {
        let images = self.local.images(alloc, plan.draws.as_slice())?;
        paint_alpha_rows(images.as_slice(), form, bytes, size.w, 0, size.h);
        Ok(())
    }

    /// Draws what a look at a track shows, in a frame as the script sees it, as a picture with alpha: over nothing, into just four bytes for
    /// each pixel, red, green, blue and alpha, row by row. After an `Err` they are as before.
    pub fn draw_scene_alpha(
        &mut self,
        alloc: Global,
        scene: &Scene,
        frame: &FrameView,
        form: AlphaForm,
        bytes: &mut [u8],
    ) -> Mem<()>
        requires fonts { 0 < length self.old.fonts }
        requires scene { (history : List Entry) × IsHistory history × IsSceneOf history scene.now.t scene.now }
        requires instant { IsWithin max_instant scene.now.t }
        requires frame { IsFrameView frame.now }
        requires bytes { length bytes.old ≡ 4 * (frame.now.size.h * frame.now.size.w) }
        ensures picture { (history : List Entry) → IsSceneOf history scene.now.t scene.now
            → OnOk result (IsAlphaPictureAt form self.old.script self.old.fonts (live history) scene.now.t frame.now bytes.new) }
        ensures err { OnErr result (bytes.new ≡ bytes.old) }
        ensures same { self.new ≡ self.old }
    {
        let plan = self.plan_of(alloc, scene, frame)?;
        self.paint_over_nothing(alloc, &plan, &frame.size, form, bytes)
    }

    /// Draws what the live events show at an instant, in milliseconds, in a frame as the script sees it, as a picture with alpha: over
    /// nothing, into just four bytes for each pixel, red, green, blue and alpha, row by row. Whatever the caches keep and whatever was
    /// drawn before, it is the same. After an `Err` the bytes are as before.
    pub fn draw_alpha_in(
        &mut self,
        alloc: Global,
        t: i64,
        frame: &FrameView,
        form: AlphaForm,
        bytes: &mut [u8],
    ) -> Mem<()>
        requires fonts { 0 < length self.old.fonts }
        requires instant { IsWithin max_instant t }
        requires frame { IsFrameView frame.now }
        requires bytes { length bytes.old ≡ 4 * (frame.now.size.h * frame.now.size.w) }
        ensures picture { OnOk result (IsAlphaPictureAt form self.old.script self.old.fonts self.old.track.events t frame.now bytes.new) }
        ensures err { OnErr result (bytes.new ≡ bytes.old) }
        ensures same { self.new ≡ self.old }
    {
        let plan = self.plan_at(alloc, t, frame)?;
        self.paint_over_nothing(alloc, &plan, &frame.size, form, bytes)
    }

    /// The same in a frame of which the size alone is known, into bytes of its own.
    pub fn draw_alpha(
        &mut self,
        alloc: Global,
        t: i64,
        size: &Size,
        form: AlphaForm,
    ) -> Mem<Vec<u8>>
        requires fonts { 0 < length self.old.fonts }
        requires instant { IsWithin max_instant t }
        requires size { IsFrameSize size.now }
        ensures picture { IfOk result (λ bytes. IsAlphaPictureAt form self.old.script self.old.fonts self.old.track.events t (plain_frame size.now) bytes.items) }
        ensures same { self.new ≡ self.old }
    {
        let mut bytes = vec![in alloc; 0; 4 * (size.h as usize * size.w as usize)]?;
        self.draw_alpha_in(
            alloc,
            t,
            &FrameView::plain(*size),
            form,
            bytes.as_mut_slice(),
        )?;
        Ok(bytes)
    }
}
