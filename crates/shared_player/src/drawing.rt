//! Pictures, and lists of plain images, of one look at the track each.

ghost use Rattle.std.specs.Prelude.{◌≡◌, ◌<◌, length, IfOk, IfErr, OnErr};
ghost use Rattle.ass_num.specs.Limits.{IsFrameSize, IsWithin, max_instant};
ghost use Rattle.frame_view.specs.FrameViews.{IsFrameView, plain_frame};
ghost use Rattle.shared_player.specs.Shown.{ListsHistory, ShowsHistory};
ghost use Rattle.shared_player.specs.Tries.{IsLookRefused};
ghost use Rattle.track_history.specs.Calls.{IsTriedLook};

use crate::answers::{Drawn, ListChange};
use crate::seat::Seat;
use ass_num::Size;
use frame_view::FrameView;
use std::alloc::Global;
use std::mem::ManuallyDrop;
use track_history::{LookRefusal, Scene};

impl Seat {
    /// Looks at the track, unless another seat has the turn.
    pub(crate) fn try_look(self, alloc: Global, t: i64) -> (Seat, Result<Scene, LookRefusal>)
        ensures look { IsTriedLook self.track t result.0.track result.1 }
        ensures same { result.0 ≡ record self { track = result.0.track } }
    {
        let Seat {
            player,
            track,
            pass,
            first,
        } = self;
        let pass = ManuallyDrop::into_inner(pass);
        let (pass, scene) = track.try_look(alloc, pass, t);
        (Seat::of(player, track, pass, first), scene)
    }

    /// The picture that the track shows at an instant, in milliseconds, in a frame as the script sees it, unless another seat
    /// has the turn: then the try is lost, and that is all. It is the picture of the first `entries` entries of the one
    /// history, which are all that the seat has seen then, whatever its caches keep and whatever was drawn before.
    pub fn draw_in(
        self,
        alloc: Global,
        t: i64,
        frame: &FrameView,
    ) -> (Seat, Result<Drawn, LookRefusal>)
        requires fonts { 0 < length self.fonts }
        requires instant { IsWithin max_instant t }
        requires frame { IsFrameView frame.now }
        ensures shown { IfOk result.1 (ShowsHistory self result.0 t frame.now) }
        ensures refused { IfErr result.1 (IsLookRefused self.track result.0.track) }
        ensures same { result.0 ≡ record self { track = result.0.track } }
    {
        let (mut seat, scene) = self.try_look(alloc, t);
        let scene = match scene {
            Ok(scene) => scene,
            Err(refusal) => return (seat, Err(refusal)),
        };
        match seat.player.draw_scene(alloc, &scene, frame) {
            Ok(canvas) => {
                let entries = scene.n;
                (seat, Ok(Drawn { entries, canvas }))
            }
            Err(_) => (seat, Err(LookRefusal::OutOfMemory)),
        }
    }

    /// The same in a frame of which the size alone is known.
    pub fn draw(self, alloc: Global, t: i64, size: &Size) -> (Seat, Result<Drawn, LookRefusal>)
        requires fonts { 0 < length self.fonts }
        requires instant { IsWithin max_instant t }
        requires size { IsFrameSize size.now }
        ensures shown { IfOk result.1 (ShowsHistory self result.0 t (plain_frame size.now)) }
        ensures refused { IfErr result.1 (IsLookRefused self.track result.0.track) }
        ensures same { result.0 ≡ record self { track = result.0.track } }
    {
        self.draw_in(alloc, t, &FrameView::plain(*size))
    }

    /// Lists what the track shows at an instant, in milliseconds, in a frame as the script sees it, as plain images
    /// (`ass_render_frame` in libass `ass.h`), and tells how the list differs from the seat's one before, which at first is
    /// empty. Where another seat has the turn the try is lost, and that is all.
    pub fn images_in(
        self,
        alloc: Global,
        t: i64,
        frame: &FrameView,
    ) -> (Seat, Result<ListChange, LookRefusal>)
        requires fonts { 0 < length self.fonts }
        requires instant { IsWithin max_instant t }
        requires frame { IsFrameView frame.now }
        ensures listed { IfOk result.1 (ListsHistory self result.0 t frame.now) }
        ensures refused { IfErr result.1 (IsLookRefused self.track result.0.track) }
        ensures else_same { result.0 ≡ record self { track = result.0.track; images = result.0.images } }
        ensures images { OnErr result.1 (result.0.images ≡ self.images) }
    {
        let (mut seat, scene) = self.try_look(alloc, t);
        let scene = match scene {
            Ok(scene) => scene,
            Err(refusal) => return (seat, Err(refusal)),
        };
        match seat.player.list_scene(alloc, &scene, frame) {
            Ok(change) => {
                let entries = scene.n;
                (seat, Ok(ListChange { entries, change }))
            }
            Err(_) => (seat, Err(LookRefusal::OutOfMemory)),
        }
    }

    /// The same in a frame of which the size alone is known.
    pub fn images(
        self,
        alloc: Global,
        t: i64,
        size: &Size,
    ) -> (Seat, Result<ListChange, LookRefusal>)
        requires fonts { 0 < length self.fonts }
        requires instant { IsWithin max_instant t }
        requires size { IsFrameSize size.now }
        ensures listed { IfOk result.1 (ListsHistory self result.0 t (plain_frame size.now)) }
        ensures refused { IfErr result.1 (IsLookRefused self.track result.0.track) }
        ensures else_same { result.0 ≡ record self { track = result.0.track; images = result.0.images } }
        ensures images { OnErr result.1 (result.0.images ≡ self.images) }
    {
        self.images_in(alloc, t, &FrameView::plain(*size))
    }
}
