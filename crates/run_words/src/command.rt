//! The commands.

ghost use Rattle.std.specs.Prelude.{◌≡◌, codes, find};
ghost use Rattle.std.specs.Str.{bytes_eq};
ghost use Rattle.run_words.specs.Commands.{arguments_of, command_name, commands, sharing_arguments};

use crate::argument::Argument;

/// A command of the program.
#[derive(Clone, Copy, Debug, PartialEq, Eq)]
pub enum Command {
    Check,
    Frame,
    Play,
    Selftest,
    Changes,
    Write,
}

static COMMANDS: [Command; 6] = [
    Command::Check,
    Command::Frame,
    Command::Play,
    Command::Selftest,
    Command::Changes,
    Command::Write,
];

static CHECK: [Argument; 5] = [
    Argument::Report,
    Argument::ReportTo,
    Argument::ScriptFonts,
    Argument::Script,
    Argument::Fonts,
];

static FRAME: [Argument; 12] = [
    Argument::At,
    Argument::Size,
    Argument::Storage,
    Argument::Aspect,
    Argument::Content,
    Argument::Letters,
    Argument::Scale,
    Argument::Format,
    Argument::Budget,
    Argument::ScriptFonts,
    Argument::Script,
    Argument::Fonts,
];

static PLAY: [Argument; 28] = [
    Argument::From,
    Argument::To,
    Argument::Frames,
    Argument::Step,
    Argument::Rate,
    Argument::Size,
    Argument::Feeders,
    Argument::Renderers,
    Argument::Batch,
    Argument::Again,
    Argument::Times,
    Argument::Ahead,
    Argument::Bands,
    Argument::Format,
    Argument::Matrix,
    Argument::Chroma,
    Argument::Changed,
    Argument::Crop,
    Argument::Budget,
    Argument::Mode,
    Argument::Report,
    Argument::ReportTo,
    Argument::Index,
    Argument::Progress,
    Argument::QuietPipe,
    Argument::ScriptFonts,
    Argument::Script,
    Argument::Fonts,
];

static SHARING: [Argument; 8] = [
    Argument::Feeders,
    Argument::Renderers,
    Argument::Batch,
    Argument::Again,
    Argument::Times,
    Argument::Ahead,
    Argument::Bands,
    Argument::Mode,
];

static SELFTEST: [Argument; 6] = [
    Argument::Workers,
    Argument::Report,
    Argument::ReportTo,
    Argument::Progress,
    Argument::Seed,
    Argument::Events,
];

static CHANGES: [Argument; 18] = [
    Argument::From,
    Argument::To,
    Argument::Frames,
    Argument::Step,
    Argument::Rate,
    Argument::Size,
    Argument::Storage,
    Argument::Aspect,
    Argument::Content,
    Argument::Letters,
    Argument::Scale,
    Argument::Budget,
    Argument::Report,
    Argument::ReportTo,
    Argument::Progress,
    Argument::ScriptFonts,
    Argument::Script,
    Argument::Fonts,
];

static WRITE: [Argument; 3] = [Argument::Later, Argument::Earlier, Argument::Script];

impl Command {
    /// The word that names it.
    pub fn name<'a>(self) -> &'a str
        ensures { result.now ≡ command_name self }
    {
        match self {
            Command::Check => "check",
            Command::Frame => "frame",
            Command::Play => "play",
            Command::Selftest => "selftest",
            Command::Changes => "changes",
            Command::Write => "write",
        }
    }

    /// What it takes: the options in the order in which their values are read, and then the positionals.
    pub fn arguments(self) -> &'static [Argument]
        ensures { result.now ≡ arguments_of self }
    {
        match self {
            Command::Check => CHECK.as_slice(),
            Command::Frame => FRAME.as_slice(),
            Command::Play => PLAY.as_slice(),
            Command::Selftest => SELFTEST.as_slice(),
            Command::Changes => CHANGES.as_slice(),
            Command::Write => WRITE.as_slice(),
        }
    }
}

/// What shares out the work of a play.
pub fn sharing_arguments() -> &'static [Argument]
    ensures { result.now ≡ sharing_arguments }
{
    SHARING.as_slice()
}

/// All commands.
pub fn commands() -> &'static [Command]
    ensures { result.now ≡ commands }
{
    COMMANDS.as_slice()
}

/// The command that a word names.
pub fn command_named(name: &str) -> Option<Command>
    ensures { result ≡ find (λ command. bytes_eq (command_name command) name.now) commands }
{
    for command in commands() {
        if command.name() == name {
            return Some(*command);
        }
    }
    None
}
