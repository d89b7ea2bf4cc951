//! The forms of a video.

ghost use Rattle.std.specs.Prelude.{◌≡◌};
ghost use Rattle.y4m_text.specs.Forms.{colours_said, form_for, usual_colours};

use ass_script::{ColourMatrix, ColourRange, ScriptMatrix, VideoColours};

/// How many chroma samples there are.
#[derive(Clone, Copy, Debug, PartialEq, Eq)]
pub enum Sampling {
    /// One for each pixel, 4:4:4.
    Yuv444,
    /// One for each block of two columns and two rows, in its middle, 4:2:0.
    Yuv420,
}

/// The form of a video.
#[derive(Clone, Copy, Debug, PartialEq, Eq)]
pub struct VideoForm {
    pub colours: VideoColours,
    pub sampling: Sampling,
}

/// What is asked for in a video.
#[derive(Clone, Copy, Debug, PartialEq, Eq)]
pub struct VideoChoice {
    /// Its colours, or those for which the script is.
    pub colours: Option<VideoColours>,
    pub sampling: Sampling,
}

/// The colours of BT.601 in the limited range.
fn usual_colours() -> VideoColours
    ensures { result ≡ usual_colours }
{
    VideoColours {
        matrix: ColourMatrix::Bt601,
        range: ColourRange::Limited,
    }
}

/// The colours of the video for which a script is: those that it names, or else those for which players take it (libass,
/// `ASS_YCbCrMatrix`).
fn colours_said(said: ScriptMatrix) -> VideoColours
    ensures { result ≡ colours_said said }
{
    match said {
        ScriptMatrix::Video(colours) => colours,
        ScriptMatrix::Unsaid | ScriptMatrix::Unconverted => usual_colours(),
    }
}

/// The form of a script's video that is asked for, by what the script says of its matrix.
pub fn form_for(choice: VideoChoice, said: ScriptMatrix) -> VideoForm
    ensures { result ≡ form_for choice said }
{
    let colours = match choice.colours {
        Some(colours) => colours,
        None => colours_said(said),
    };
    VideoForm {
        colours,
        sampling: choice.sampling,
    }
}
