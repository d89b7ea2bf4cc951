//! Jobs.

use ass_num::{Items, OutOfMemory, Size, Text};
use frame_rate::Instants;
use frame_view::FrameView;
use std::alloc::AllocError;
use y4m_text::{VideoChoice, VideoForm};

/// How a `play` goes: each image of what was fed before it was made, or all of what was fed whole.
#[derive(Clone, Copy, Debug, PartialEq, Eq)]
pub enum Mode {
    Live,
    Settled,
}

/// How the bytes of a frame are written.
#[derive(Clone, Copy, Debug, PartialEq, Eq)]
pub enum FrameFormat {
    /// A portable pixmap of the picture on black.
    Ppm,
    /// A portable arbitrary map of the picture with straight alpha.
    Pam,
    /// The pixels with straight alpha, and nothing before them.
    Rgba,
}

/// How the frames of a `play` are written.
#[derive(Clone, Copy, Debug, PartialEq, Eq)]
pub enum PlayFormat {
    /// Each by itself.
    Image(FrameFormat),
    /// All as one YUV4MPEG2 stream.
    Video(VideoChoice),
}

/// How an image is written.
#[derive(Clone, Copy, Debug, PartialEq, Eq)]
pub enum ImageForm {
    /// By itself.
    Image(FrameFormat),
    /// As a frame of a video.
    Video(VideoForm),
}

/// What a `frame` is asked for: the instant in milliseconds, the frame, how it is written, and the bytes of a cache's
/// budget.
#[derive(Clone, Copy, Debug)]
pub struct FrameJob {
    pub at: u64,
    pub view: FrameView,
    pub format: FrameFormat,
    pub budget: u64,
}

/// What a `changes` is asked for: the instants, the frame, and the bytes of a cache's budget.
#[derive(Clone, Copy, Debug)]
pub struct ChangesJob {
    pub instants: Instants,
    pub view: FrameView,
    pub budget: u64,
}

/// What a `play` is asked for: the instants, the size of the frames, how the work is shared, how frames are written, and
/// the bytes of a cache's budget.
#[derive(Clone, Copy, Debug, PartialEq, Eq)]
pub struct PlayJob {
    pub instants: Instants,
    pub size: Size,
    pub feeders: u32,
    pub renderers: u32,
    pub batch: u32,
    pub again: u32,
    pub times: u32,
    pub ahead: u32,
    pub bands: u32,
    pub format: PlayFormat,
    pub budget: u64,
    pub mode: Mode,
}

/// What a `play` of changed images is asked for: the instants, the size of the frames, how frames are written, whether an
/// image is only the box that changed, and the bytes of a cache's budget.
#[derive(Clone, Copy, Debug, PartialEq, Eq)]
pub struct StillsJob {
    pub instants: Instants,
    pub size: Size,
    pub format: FrameFormat,
    pub crop: bool,
    pub budget: u64,
}

/// A script by the name of its file, and whether the fonts that it holds are used.
#[derive(Debug, Drop)]
pub struct ScriptSource {
    pub name: Text,
    pub own_fonts: bool,
}

/// What the words ask for.
#[derive(Debug, Drop)]
pub enum Job {
    /// A report on a script and fonts.
    Check(ScriptSource, Items<Text>),
    /// The picture of a script with fonts at an instant.
    Frame(FrameJob, ScriptSource, Items<Text>),
    /// The pictures of a script with fonts, fed and drawn by several workers.
    Play(PlayJob, ScriptSource, Items<Text>),
    /// Those images of a play that differ from the one before.
    Stills(StillsJob, ScriptSource, Items<Text>),
    /// A generated script, by its seed and number of events, played by so many workers.
    Selftest(u32, u32, u32),
    /// What changes from picture to picture of a script with fonts.
    Changes(ChangesJob, ScriptSource, Items<Text>),
    /// The script written again, with its events so many milliseconds later and so many earlier.
    Write(i64, i64, Text),
    /// How the program is called.
    Help,
    /// Which version it is.
    Version,
}

/// Why words are refused.
#[derive(Debug, Drop)]
pub enum WordsFault {
    /// They aren't of the grammar.
    Usage,
    /// They are, but the value of this argument isn't of its rule.
    Value(Text),
}

/// Why there is no job.
#[derive(Debug, Drop)]
pub enum WordsRefusal {
    BadWords(WordsFault),
    OutOfMemory,
}

impl From<OutOfMemory> for WordsRefusal {
    ghost use Rattle.std.specs.Prelude.{◌≡◌};
    ghost use Rattle.run_words.specs.declared.job.WordsRefusal.TheVariants.{OutOfMemory as memory_refusal};

    ghost from_gives = { λ _ refusal. refusal ≡ memory_refusal };

    fn from(_refused: OutOfMemory) -> WordsRefusal {
        WordsRefusal::OutOfMemory
    }
}

impl From<AllocError> for WordsRefusal {
    ghost use Rattle.std.specs.Prelude.{◌≡◌};
    ghost use Rattle.run_words.specs.declared.job.WordsRefusal.TheVariants.{OutOfMemory as memory_refusal};

    ghost from_gives = { λ _ refusal. refusal ≡ memory_refusal };

    fn from(_refused: AllocError) -> WordsRefusal {
        WordsRefusal::OutOfMemory
    }
}
