//! The arguments of all commands.

ghost use Rattle.std.specs.Prelude.{◌≡◌, ◌++◌, IfOk, codes};
ghost use Rattle.run_words.specs.Arguments.{argument_name, is_positional, is_required, argument_kind, shown_name, stands_alone};

use ass_num::{Mem, Text};
use std::alloc::Global;

/// The last instant, in milliseconds.
const MAX_INSTANT: u64 = 4_000_000_000_000;

/// The largest size of letters, in thousandths.
const MAX_LETTER_SCALE: u64 = 100_000;

/// The most feeders, renderers or workers.
const MAX_WORKERS: u64 = 8;

/// The most lines of a batch, and the most lines that are fed again.
const MAX_BATCH: u64 = 10_000;

/// The most times that a job is played.
const MAX_TIMES: u64 = 8;

/// The most instants that are warmed ahead.
const MAX_AHEAD: u64 = 64;

/// The most bands of a frame.
const MAX_BANDS: u64 = 8;

/// The most frames that are asked for by their number.
const MAX_ASKED_FRAMES: u64 = 1_000_000;

/// The most bytes of a cache's budget.
const MAX_BUDGET: u64 = 1 << 40;

/// The last seed.
const MAX_SEED: u64 = 2_147_483_647;

/// The most events that are generated.
const MAX_EVENTS: u64 = 100_000;

/// What the text of a value has to be.
#[derive(Clone, Copy, Debug, PartialEq, Eq)]
pub enum Kind {
    /// A number from the first to the second.
    Number(u64, u64),
    /// The columns and the rows of a frame, with an `x` between.
    FrameSize,
    /// Those of a video.
    VideoSize,
    /// The width and the height of a pixel, with a `/` between.
    PixelShape,
    /// The left and the top of a picture in the frame, and its size, with commas between.
    PictureRect,
    /// `script` or `aspect`.
    LettersRule,
    /// `live` or `settled`.
    PlayMode,
    /// `ppm`, `pam`, `rgba` or `y4m`.
    PictureFormat,
    /// `script`, or the name of a video's colours, as `TV.709`.
    ColourRule,
    /// `420` or `444`.
    ChromaSampling,
    /// Frames in one second, or in as many as stand behind a `/`.
    FramesInSeconds,
    /// `text`, `json` or `none`.
    WrittenForm,
    /// None: the option stands alone.
    Alone,
    /// The name of a file, which is any text.
    FileName,
}

/// An argument of a command.
#[derive(Clone, Copy, Debug, PartialEq, Eq)]
pub enum Argument {
    At,
    From,
    To,
    Frames,
    Step,
    Rate,
    Size,
    Storage,
    Aspect,
    Content,
    Letters,
    Scale,
    Format,
    Matrix,
    Chroma,
    Changed,
    Crop,
    Feeders,
    Renderers,
    Batch,
    Again,
    Times,
    Ahead,
    Bands,
    Budget,
    Mode,
    Report,
    ReportTo,
    Index,
    Progress,
    QuietPipe,
    ScriptFonts,
    Workers,
    Later,
    Earlier,
    Script,
    Fonts,
    Seed,
    Events,
}

impl Argument {
    /// Its name: an option's without the two dashes.
    pub fn name<'a>(self) -> &'a str
        ensures { result.now ≡ argument_name self }
    {
        match self {
            Argument::At => "at",
            Argument::From => "from",
            Argument::To => "to",
            Argument::Frames => "frames",
            Argument::Step => "step",
            Argument::Rate => "rate",
            Argument::Size => "size",
            Argument::Storage => "storage",
            Argument::Aspect => "aspect",
            Argument::Content => "content",
            Argument::Letters => "letters",
            Argument::Scale => "scale",
            Argument::Format => "format",
            Argument::Matrix => "matrix",
            Argument::Chroma => "chroma",
            Argument::Changed => "changed",
            Argument::Crop => "crop",
            Argument::Feeders => "feeders",
            Argument::Renderers => "renderers",
            Argument::Batch => "batch",
            Argument::Again => "again",
            Argument::Times => "times",
            Argument::Ahead => "ahead",
            Argument::Bands => "bands",
            Argument::Budget => "budget",
            Argument::Mode => "mode",
            Argument::Report => "report",
            Argument::ReportTo => "report-to",
            Argument::Index => "index",
            Argument::Progress => "progress",
            Argument::QuietPipe => "quiet-pipe",
            Argument::ScriptFonts => "script-fonts",
            Argument::Workers => "workers",
            Argument::Later => "later",
            Argument::Earlier => "earlier",
            Argument::Script => "SCRIPT",
            Argument::Fonts => "FONT",
            Argument::Seed => "SEED",
            Argument::Events => "EVENTS",
        }
    }

    /// Whether it is named by its place among the words alone.
    pub fn is_positional(self) -> bool
        ensures { result ≡ is_positional self }
    {
        match self {
            Argument::Script | Argument::Fonts | Argument::Seed | Argument::Events => true,
            _ => false,
        }
    }

    /// Whether a command that takes it needs it.
    pub fn is_required(self) -> bool
        ensures { result ≡ is_required self }
    {
        match self {
            Argument::At | Argument::From | Argument::Size => true,
            _ => self.is_positional(),
        }
    }

    /// Whether it is an option that stands alone.
    pub fn stands_alone(self) -> bool
        ensures { result ≡ stands_alone self }
    {
        match self {
            Argument::Changed | Argument::Crop | Argument::ScriptFonts => true,
            Argument::Progress | Argument::QuietPipe => true,
            _ => false,
        }
    }

    /// What its value has to be.
    pub fn kind(self) -> Kind
        ensures { result ≡ argument_kind self }
    {
        match self {
            Argument::At | Argument::From | Argument::To | Argument::Later | Argument::Earlier =>
                Kind::Number(0, MAX_INSTANT),
            Argument::Frames => Kind::Number(1, MAX_ASKED_FRAMES),
            Argument::Step => Kind::Number(1, MAX_INSTANT),
            Argument::Rate => Kind::FramesInSeconds,
            Argument::Size => Kind::FrameSize,
            Argument::Storage => Kind::VideoSize,
            Argument::Aspect => Kind::PixelShape,
            Argument::Content => Kind::PictureRect,
            Argument::Letters => Kind::LettersRule,
            Argument::Scale => Kind::Number(0, MAX_LETTER_SCALE),
            Argument::Format => Kind::PictureFormat,
            Argument::Matrix => Kind::ColourRule,
            Argument::Chroma => Kind::ChromaSampling,
            Argument::Feeders | Argument::Renderers | Argument::Workers => {
                Kind::Number(1, MAX_WORKERS)
            }
            Argument::Batch => Kind::Number(1, MAX_BATCH),
            Argument::Again => Kind::Number(0, MAX_BATCH),
            Argument::Times => Kind::Number(1, MAX_TIMES),
            Argument::Ahead => Kind::Number(0, MAX_AHEAD),
            Argument::Bands => Kind::Number(1, MAX_BANDS),
            Argument::Budget => Kind::Number(0, MAX_BUDGET),
            Argument::Mode => Kind::PlayMode,
            Argument::Report => Kind::WrittenForm,
            Argument::Changed | Argument::Crop | Argument::ScriptFonts => Kind::Alone,
            Argument::Progress | Argument::QuietPipe => Kind::Alone,
            Argument::Seed => Kind::Number(0, MAX_SEED),
            Argument::Events => Kind::Number(1, MAX_EVENTS),
            Argument::ReportTo | Argument::Index | Argument::Script | Argument::Fonts => {
                Kind::FileName
            }
        }
    }

    /// Its name as a refusal shows it: an option's with the two dashes.
    pub fn shown_name(self, alloc: Global) -> Mem<Text>
        ensures { IfOk result (λ name. name ≡ shown_name self) }
    {
        let name = self.name();
        if self.is_positional() {
            Text::copy(alloc, name)
        } else {
            let shown = format!(in alloc; "--{name}")?;
            Text::copy(alloc, shown.as_str())
        }
    }
}
