//! Lists of plain images.

ghost use Rattle.std.specs.Prelude.{◌≡◌, ◌<◌, List, All, length, map, IfOk, OnOk, OnErr, IsTrue};
ghost use Rattle.ass_events.specs.Histories.{Entry, IsHistory, live};
ghost use Rattle.ass_num.specs.Limits.{IsFrameSize, IsWithin, max_instant};
ghost use Rattle.blend.specs.Canvases.{black};
ghost use Rattle.mask_keys.specs.Keys.{IsValidPlan};
ghost use Rattle.mask_keys.specs.Outlines.{glyph_counts};
ghost use Rattle.mask_keys.specs.Pictures.{image_of_draw};
ghost use Rattle.frame_view.specs.FrameViews.{IsFrameView, plain_frame};
ghost use Rattle.picture_plan.specs.Pictures.{IsPictureAt};
ghost use Rattle.plain_images.specs.PlainImages.{ArePlainImages, LiesInFrame, with_plain_images};
ghost use Rattle.player.specs.Changes.{IsListChange};
ghost use Rattle.player.specs.Listing.{AreListed, IsListOf};
ghost use Rattle.player.specs.Players.{mask_bytes};
ghost use Rattle.track_history.specs.Answers.{IsSceneOf};

use crate::changes::list_change;
use crate::listing::{byte_count, images_of_plan};
use crate::player::{Listed, Player};
use ass_num::{Mem, Size};
use frame_change::ChangeKind;
use frame_view::FrameView;
use mask_keys::Plan;
use plain_images::{PlainImage, laws};
use std::alloc::Global;
use track_history::Scene;

/// Whether what is listed is of this plan and this size.
fn is_list_of(listed: &Option<Listed>, plan: &Plan, size: &Size) -> bool
    ensures { IsTrue result → AreListed listed.now size.now plan.now.draws }
{
    match listed {
        Some(listed) => {
            if !(listed.size == *size) {
                return false;
            }
            listed.plan == *plan
        }
        None => false,
    }
}

impl Player {
    /// Whether the images that were listed last are those of this plan in a frame of this size.
    fn has_listed(&self, plan: &Plan, size: &Size) -> bool
        ensures { IsTrue result → ArePlainImages size.now (map (image_of_draw self.now.fonts) plan.now.draws) self.now.images }
    {
        is_list_of(&self.listed, plan, size)
    }

    /// Lists the plain images of a plan, and tells how the list differs from the one before.
    fn list_anew(&mut self, alloc: Global, plan: Plan, size: &Size) -> Mem<ChangeKind>
        requires plan { IsValidPlan (glyph_counts self.old.fonts) plan.draws }
        requires size { IsFrameSize size.now }
        ensures images { OnOk result (ArePlainImages size.now (map (image_of_draw self.old.fonts) plan.draws) self.new.images) }
        ensures change { IfOk result (λ kind. IsListChange kind self.old.images self.new.images) }
        ensures else_same { OnOk result (self.new ≡ record self.old { images = self.new.images }) }
        ensures err { OnErr result (self.new ≡ self.old) }
    {
        let images = images_of_plan(alloc, &mut self.local, size, &plan)?;
        let bytes = byte_count(images.as_slice())?;
        let kind = list_change(self.images.as_slice(), images.as_slice());
        self.images = images;
        self.bytes = bytes;
        self.listed = Some(Listed { size: *size, plan });
        Ok(kind)
    }

    /// Lists the plain images of a plan, unless they are listed already, and tells how the list differs from the one before.
    fn list_plan(&mut self, alloc: Global, plan: Plan, size: &Size) -> Mem<ChangeKind>
        requires plan { IsValidPlan (glyph_counts self.old.fonts) plan.draws }
        requires size { IsFrameSize size.now }
        ensures images { OnOk result (ArePlainImages size.now (map (image_of_draw self.old.fonts) plan.draws) self.new.images) }
        ensures change { IfOk result (λ kind. IsListChange kind self.old.images self.new.images) }
        ensures else_same { OnOk result (self.new ≡ record self.old { images = self.new.images }) }
        ensures err { OnErr result (self.new ≡ self.old) }
    {
        if self.has_listed(&plan, size) {
            return Ok(ChangeKind::Same);
        }
        self.list_anew(alloc, plan, size)
    }

    /// Lists what a look at a track shows, in a frame as the script sees it, as plain images, and tells how the list differs
    /// from the one before. An `Err` changes nothing.
    pub fn list_scene(&mut self, alloc: Global, scene: &Scene, frame: &FrameView) -> Mem<ChangeKind>
        requires fonts { 0 < length self.old.fonts }
        requires scene { (history : List Entry) × IsHistory history × IsSceneOf history scene.now.t scene.now }
        requires instant { IsWithin max_instant scene.now.t }
        requires frame { IsFrameView frame.now }
        ensures picture { (history : List Entry) → IsSceneOf history scene.now.t scene.now
            → OnOk result (IsPictureAt self.old.script self.old.fonts (live history) scene.now.t frame.now
            (with_plain_images (black frame.now.size.w frame.now.size.h) self.new.images)) }
        ensures within { OnOk result (All (LiesInFrame frame.now.size) self.new.images) }
        ensures list { (history : List Entry) → IsSceneOf history scene.now.t scene.now
            → OnOk result (IsListOf self.old.script self.old.fonts (live history) scene.now.t frame.now self.new.images) }
        ensures change { IfOk result (λ kind. IsListChange kind self.old.images self.new.images) }
        ensures else_same { OnOk result (self.new ≡ record self.old { images = self.new.images }) }
        ensures err { OnErr result (self.new ≡ self.old) }
    {
        laws::plain_images_make_the_picture();
        let plan = self.plan_of(alloc, scene, frame)?;
        self.list_plan(alloc, plan, &frame.size)
    }

    /// Lists what the live events show at an instant, in milliseconds, in a frame as the script sees it, as plain images
    /// (`ass_render_frame` in libass `ass.h`), and tells how the list differs from the one before, which at first is empty.
    /// An `Err` changes nothing.
    pub fn images_in(&mut self, alloc: Global, t: i64, frame: &FrameView) -> Mem<ChangeKind>
        requires fonts { 0 < length self.old.fonts }
        requires instant { IsWithin max_instant t }
        requires frame { IsFrameView frame.now }
        // Painted in order, with nothing hidden, they make the picture, and all of them lie in the frame.
        ensures picture { OnOk result (IsPictureAt self.old.script self.old.fonts self.old.track.events t frame.now
            (with_plain_images (black frame.now.size.w frame.now.size.h) self.new.images)) }
        ensures within { OnOk result (All (LiesInFrame frame.now.size) self.new.images) }
        // Which they are.
        ensures list { OnOk result (IsListOf self.old.script self.old.fonts self.old.track.events t frame.now self.new.images) }
        ensures change { IfOk result (λ kind. IsListChange kind self.old.images self.new.images) }
        ensures else_same { OnOk result (self.new ≡ record self.old { images = self.new.images }) }
        ensures err { OnErr result (self.new ≡ self.old) }
    {
        laws::plain_images_make_the_picture();
        let plan = self.plan_at(alloc, t, frame)?;
        self.list_plan(alloc, plan, &frame.size)
    }

    /// The same in a frame of which the size alone is known.
    pub fn images(&mut self, alloc: Global, t: i64, size: &Size) -> Mem<ChangeKind>
        requires fonts { 0 < length self.old.fonts }
        requires instant { IsWithin max_instant t }
        requires size { IsFrameSize size.now }
        ensures picture { OnOk result (IsPictureAt self.old.script self.old.fonts self.old.track.events t (plain_frame size.now)
            (with_plain_images (black size.now.w size.now.h) self.new.images)) }
        ensures frame { OnOk result (All (LiesInFrame size.now) self.new.images) }
        ensures list { OnOk result (IsListOf self.old.script self.old.fonts self.old.track.events t (plain_frame size.now) self.new.images) }
        ensures change { IfOk result (λ kind. IsListChange kind self.old.images self.new.images) }
        ensures else_same { OnOk result (self.new ≡ record self.old { images = self.new.images }) }
        ensures err { OnErr result (self.new ≡ self.old) }
    {
        self.images_in(alloc, t, &FrameView::plain(*size))
    }

    /// The images that were listed last, the lowest first.
    pub fn listed_images(&self) -> &[PlainImage]
        ensures { result.now ≡ self.now.images }
    {
        self.images.as_slice()
    }

    /// How many bytes the masks of those images have together.
    pub fn listed_bytes(&self) -> usize
        ensures { result ≡ mask_bytes self.now.images }
    {
        self.bytes
    }
}
