//! Pictures with alpha, of one look at the track each.

ghost use Rattle.std.specs.Prelude.{◌≡◌, ◌<◌, ◌*◌, length, IfOk, IfErr, OnErr};
ghost use Rattle.ass_num.specs.Limits.{IsWithin, max_instant};
ghost use Rattle.frame_view.specs.FrameViews.{IsFrameView};
ghost use Rattle.shared_player.specs.Shown.{ShowsAlphaHistory};
ghost use Rattle.shared_player.specs.Tries.{IsLookRefused};

use crate::seat::Seat;
use alpha_canvas::AlphaForm;
use frame_view::FrameView;
use std::alloc::Global;
use track_history::LookRefusal;

impl Seat {
    /// Draws what the track shows at an instant, in milliseconds, in a frame as the script sees it, as a picture with alpha: over nothing,
    /// into just four bytes for each pixel, red, green, blue and alpha, row by row. It tells of how many entries of the one history the
    /// picture is, which are all that the seat has seen then. Where another seat has the turn the try is lost, and that is all. After an
    /// `Err` the bytes are as before.
    pub fn draw_alpha_in(
        self,
        alloc: Global,
        t: i64,
        frame: &FrameView,
        form: AlphaForm,
        bytes: &mut [u8],
    ) -> (Seat, Result<usize, LookRefusal>)
        requires fonts { 0 < length self.fonts }
        requires instant { IsWithin max_instant t }
        requires frame { IsFrameView frame.now }
        requires bytes { length bytes.old ≡ 4 * (frame.now.size.h * frame.now.size.w) }
        ensures shown { IfOk result.1 (ShowsAlphaHistory self result.0 t frame.now form bytes.new) }
        ensures refused { IfErr result.1 (IsLookRefused self.track result.0.track) }
        ensures bytes { OnErr result.1 (bytes.new ≡ bytes.old) }
        ensures same { result.0 ≡ record self { track = result.0.track } }
    {
        let (mut seat, scene) = self.try_look(alloc, t);
        let scene = match scene {
            Ok(scene) => scene,
            Err(refusal) => return (seat, Err(refusal)),
        };
        match seat
            .player
            .draw_scene_alpha(alloc, &scene, frame, form, bytes)
        {
            Ok(()) => (seat, Ok(scene.n)),
            Err(_) => (seat, Err(LookRefusal::OutOfMemory)),
        }
    }
}
