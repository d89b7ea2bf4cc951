//! How a run of the program ended.

ghost use Rattle.std.specs.Prelude.{◌≡◌, IfOk, string_bytes};
ghost use Rattle.run_status.specs.Statuses.{limit_line, unwritable_line, what_text, words_line};
ghost use Rattle.run_status.specs.declared.status.Status.TheVariants.{OutOfMemory as memory_status};

use crate::fields::field_name;
use crate::font_fault::{FontFault, FontPlace};
use ass_num::{Mem, OutOfMemory, Text};
use ass_script::EventField;
use run_words::WordsFault;
use std::alloc::Global;

/// Which of the two sinks.
#[derive(Clone, Copy, Debug, PartialEq, Eq)]
pub enum Which {
    /// The images.
    Frames,
    /// The lines on what happened, and what `check` found.
    Report,
}

/// What there is too much of.
#[derive(Clone, Copy, Debug, PartialEq, Eq)]
pub enum What {
    /// The bytes of a file.
    Bytes,
    /// The Dialogue lines of a script.
    Lines,
    /// The styles of a script.
    Styles,
    /// The glyphs of a font.
    Glyphs,
    /// The faces of a font's file.
    Faces,
    /// The fonts of a job.
    Fonts,
    /// The pictures that a job looks at.
    Frames,
}

/// Why a script isn't read.
#[derive(Clone, Copy, Debug, PartialEq, Eq)]
pub enum BadScript {
    /// The bytes aren't UTF-8; their longest valid front has so many bytes.
    NotUtf8(usize),
    /// No line is the heading `[Events]`.
    NoEvents,
    /// The data of a font that the script holds leave their format at this line, from 1.
    FontData(usize),
}

/// How a run of the program ended. A name that a status carries is a file's, as the words have it.
#[derive(Debug, Drop)]
pub enum Status {
    /// The job was done whole: exit status 0.
    Done,
    /// The words ask for no job: exit status 2.
    BadWords(WordsFault),
    /// Nothing has this name: exit status 3.
    NoSuchFile(Text),
    /// The file couldn't be read: exit status 4.
    ReadFault(Text),
    /// The script isn't one: exit status 5.
    BadScript(BadScript),
    /// The font at this place isn't one, and where it leaves its format: exit status 6.
    BadFont(FontPlace, FontFault),
    /// The sink failed: exit status 7.
    WriteFault(Which),
    /// There is more of it than this many: exit status 8.
    TooLarge(What, usize),
    /// Memory was wanting: exit status 9.
    OutOfMemory,
    /// The event with this ReadOrder can't be written again, and this field of it is why: exit status 11.
    Unwritable(u32, EventField),
}

impl From<OutOfMemory> for Status {
    ghost from_gives = { λ _ status. status ≡ memory_status };

    fn from(_refused: OutOfMemory) -> Status {
        Status::OutOfMemory
    }
}

/// What there is too much of, in a word.
fn what_text(what: What) -> &'static str
    ensures { result.now ≡ what_text what }
{
    match what {
        What::Bytes => "bytes",
        What::Lines => "lines",
        What::Styles => "styles",
        What::Glyphs => "glyphs",
        What::Faces => "faces",
        What::Fonts => "fonts",
        What::Frames => "frames",
    }
}

/// The line of the report on a limit that is passed.
fn limit_line(alloc: Global, what: &str, limit: usize) -> Mem<String>
    ensures { IfOk result (λ text. string_bytes text ≡ limit_line what.now limit) }
{
    Ok(format!(in alloc; "too large: {what} passes {limit}\n")?)
}

/// The line of the report on an event that can't be written.
fn unwritable_line(alloc: Global, order: u32, field: EventField) -> Mem<String>
    ensures { IfOk result (λ text. string_bytes text ≡ unwritable_line order field) }
{
    let name = field_name(field);
    Ok(format!(in alloc; "unwritable {order} {name}\n")?)
}

/// The line of the report on words that ask for no job.
fn words_line(alloc: Global, fault: &WordsFault) -> Mem<String>
    ensures { IfOk result (λ line. string_bytes line ≡ words_line fault.now) }
{
    match fault {
        WordsFault::Usage => Ok(String::from_str(alloc, "bad words: usage\n")?),
        WordsFault::Value(name) => {
            let name = name.as_str();
            Ok(format!(in alloc; "bad words: {name}\n")?)
        }
    }
}

impl Which {
    ghost use Rattle.std.specs.Prelude.{◌≡◌};
    ghost use Rattle.run_status.specs.Statuses.{sink_text};

    /// The sink in a word.
    fn text(self) -> &'static str
        ensures { result.now ≡ sink_text self }
    {
        match self {
            Which::Frames => "frames",
            Which::Report => "report",
        }
    }
}

impl BadScript {
    ghost use Rattle.std.specs.Prelude.{◌≡◌, IfOk, string_bytes};
    ghost use Rattle.run_status.specs.Statuses.{script_line};

    /// The line of the report.
    fn line(self, alloc: Global) -> Mem<String>
        ensures { IfOk result (λ line. string_bytes line ≡ script_line self) }
    {
        match self {
            BadScript::NotUtf8(n) => Ok(format!(in alloc; "bad script: not UTF-8 at byte {n}\n")?),
            BadScript::NoEvents => {
                Ok(String::from_str(alloc, "bad script: no [Events] section\n")?)
            }
            BadScript::FontData(n) => Ok(format!(in alloc; "bad script: font data at line {n}\n")?),
        }
    }
}

impl Status {
    ghost use Rattle.std.specs.Prelude.{◌≡◌, IfOk, string_bytes};
    ghost use Rattle.run_status.specs.Statuses.{exit_status_of, status_line};

    /// The exit status of the program.
    pub fn exit_status(&self) -> u8
        ensures { result ≡ exit_status_of self.now }
    {
        match self {
            Status::Done => 0,
            Status::BadWords(_) => 2,
            Status::NoSuchFile(_) => 3,
            Status::ReadFault(_) => 4,
            Status::BadScript(_) => 5,
            Status::BadFont(_, _) => 6,
            Status::WriteFault(_) => 7,
            Status::TooLarge(_, _) => 8,
            Status::OutOfMemory => 9,
            Status::Unwritable(_, _) => 11,
        }
    }

    /// The line of the report, with its line feed; of a job that was done whole there is none.
    pub fn line(&self, alloc: Global) -> Mem<String>
        ensures { IfOk result (λ line. string_bytes line ≡ status_line self.now) }
    {
        match self {
            Status::Done => Ok(String::new(alloc)),
            Status::BadWords(fault) => words_line(alloc, fault),
            Status::NoSuchFile(name) => {
                let name = name.as_str();
                Ok(format!(in alloc; "no such file: {name}\n")?)
            }
            Status::ReadFault(name) => {
                let name = name.as_str();
                Ok(format!(in alloc; "read fault: {name}\n")?)
            }
            Status::BadScript(cause) => cause.line(alloc),
            Status::BadFont(place, fault) => fault.line(alloc, *place),
            Status::WriteFault(which) => {
                let sink = which.text();
                Ok(format!(in alloc; "write fault: {sink}\n")?)
            }
            Status::TooLarge(what, limit) => limit_line(alloc, what_text(*what), *limit),
            Status::OutOfMemory => Ok(String::from_str(alloc, "out of memory\n")?),
            Status::Unwritable(order, field) => unwritable_line(alloc, *order, *field),
        }
    }
}
