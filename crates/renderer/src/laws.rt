//! Laws of frames and of passes, for the crates above. Each function does nothing: its contract is the law.
ghost use Rattle.std.specs.Prelude.{ℤ, List, None};
ghost use Rattle.ass_events.specs.Histories.{Entry, live};
ghost use Rattle.ass_num.specs.declared.size.Size.{Size};
ghost use Rattle.ass_script.specs.Scripts.{ScriptValue};
ghost use Rattle.bdf_font.specs.Fonts.{FontValue};
ghost use Rattle.frame_view.specs.FrameViews.{plain_frame};
ghost use Rattle.picture_plan.specs.Pictures.{IsPictureAt};
ghost use Rattle.track_history.specs.Calls.{IsTurn, history_of};
ghost use Rattle.renderer.specs.ShownFrames.{canvas_of};
ghost use Rattle.renderer.specs.Frames.{IsFrameOf};
ghost use Rattle.renderer.specs.Holding.{HoldsFrame, HoldsFrameFewer, HoldsFrameMore, HoldsTheSame};
ghost use Rattle.renderer.specs.Keeping.{CachesAreKept};
ghost use Rattle.renderer.specs.OneHistory.{ShowsOneHistory};
ghost use Rattle.renderer.specs.Passes.{HoldsNothing, RenderView, RendererView};
ghost use Rattle.renderer.specs.declared.frames.Frame.{Frame};

/// A frame of a history shows the picture of what is live of it. One of all that a pass has seen after a turn shows the one history.
pub fn frames_are_pictures()
    ensures picture { (script : ScriptValue) (fonts : List FontValue) (history : List Entry) (t : ℤ) (size : Size) (frame : Frame)
        → IsFrameOf script fonts history t size frame
        → IsPictureAt script fonts (live history) t (plain_frame size) (canvas_of frame) }
    ensures turn { (renderer : RendererView) (pass after : RenderView) (t : ℤ) (size : Size) (frame : Frame) → IsTurn pass.track after.track None
        → IsFrameOf renderer.script renderer.fonts (history_of after.track.seen) t size frame → ShowsOneHistory renderer pass after t size frame }
{}

/// A pass that has a frame holds its pins, and holds what it did before once it has released it. A pass that holds as much as one that
/// holds nothing holds nothing.
pub fn frames_are_given_back()
    ensures holds { (renderer : RendererView) (pass after : RenderView) (frame : Frame) → HoldsFrameMore renderer pass after frame
        → HoldsFrame renderer after frame }
    ensures released { (renderer : RendererView) (pass held after : RenderView) (frame : Frame) → HoldsFrameMore renderer pass held frame
        → HoldsFrameFewer renderer held after frame → HoldsTheSame renderer pass after }
    ensures again { (renderer : RendererView) (p q r : RenderView) → HoldsTheSame renderer p q → HoldsTheSame renderer q r → HoldsTheSame renderer p r }
    ensures nothing { (renderer : RendererView) (pass after : RenderView) → HoldsNothing renderer pass → HoldsTheSame renderer pass after
        → CachesAreKept renderer after → HoldsNothing renderer after }
{}
