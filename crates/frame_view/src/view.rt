//! Frames as scripts see them.

use ass_num::Size;

/// A rectangle of whole pixels: its left and its top in the frame, its columns and its rows.
#[derive(Clone, Copy, Debug, PartialEq, Eq)]
pub struct PixelRect {
    pub left: i32,
    pub top: i32,
    pub w: u32,
    pub h: u32,
}

/// The shape of a video's pixels: so many parts wide, and so many high, each from 1 to 65,536.
#[derive(Clone, Copy, Debug, PartialEq, Eq)]
pub struct PixelAspect {
    pub wide: u32,
    pub high: u32,
}

/// By what the width of letters goes.
#[derive(Clone, Copy, Debug, PartialEq, Eq)]
pub enum LetterWidth {
    /// By the columns of the script's canvas, as all else across the frame.
    Canvas,
    /// By its rows and the shape of the video's pixels: letters keep the shape that they have on the video.
    Aspect,
}

/// What a frame is to a script.
#[derive(Clone, Copy, Debug, PartialEq, Eq)]
pub struct FrameView {
    /// The columns and the rows of what is drawn on.
    pub size: Size,
    /// Where the video's picture stands in it; else it fills the frame.
    pub content: Option<PixelRect>,
    /// The columns and the rows of the video as it is stored, each from 1 to 65,536.
    pub storage: Option<Size>,
    /// The shape of the video's pixels.
    pub aspect: Option<PixelAspect>,
    pub letters: LetterWidth,
    /// How large letters, borders and blurs of lines are that aren't typeset, in thousandths of what the script says; at most 100,000.
    pub scale: u32,
    /// Whether such lines may stand in the bars beside the picture.
    pub bars: bool,
}

impl FrameView {
    ghost use Rattle.std.specs.Prelude.{◌≡◌};
    ghost use Rattle.ass_num.specs.Limits.{IsFrameSize};
    ghost use Rattle.frame_view.specs.FrameViews.{IsFrameView, plain_frame};

    /// The view of a size alone: the picture fills the frame, and nothing is known of the video.
    pub fn plain(size: Size) -> FrameView
        ensures value { result ≡ plain_frame size }
        ensures range { IsFrameSize size → IsFrameView result }
    {
        FrameView {
            size,
            content: None,
            storage: None,
            aspect: None,
            letters: LetterWidth::Canvas,
            scale: 1_000,
            bars: false,
        }
    }
}
