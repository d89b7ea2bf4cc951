//! How a run ended that was told how to report.

ghost use Rattle.std.specs.Prelude.{◌≡◌, IfOk, string_bytes};
ghost use Rattle.run_status.specs.Endings.{ending_json, line_object, memory_ending, told_object};

use crate::status::Status;
use ass_num::Mem;
use json_lines::{add_number, add_text, line_of, new_line};
use std::alloc::Global;

/// How a run ended that was told how to report.
#[derive(Debug, Drop)]
pub enum Ending {
    /// As any run may end.
    As(Status),
    /// The list of changed images couldn't be written: exit status 7.
    ListFault,
    /// Who read the images ended first: exit status 7.
    Closed,
    /// The same, of which nothing was to be said: exit status 0.
    ClosedQuietly,
}

/// The exit status with a line, as a line of JSON.
fn line_object(alloc: Global, exit: u8, said: &str) -> Mem<String>
    ensures { IfOk result (λ text. string_bytes text ≡ line_object exit said.now) }
{
    let mut line = new_line(alloc);
    line.begin_object()?;
    add_number("exit", u64::from(exit), &mut line)?;
    add_text("line", said, &mut line)?;
    line.end_object()?;
    line_of(line)
}

/// The same, but nothing where there is no line.
fn told_object(alloc: Global, exit: u8, said: &str) -> Mem<String>
    ensures { IfOk result (λ text. string_bytes text ≡ told_object exit said.now) }
{
    if said.is_empty() {
        return Ok(String::new(alloc));
    }
    line_object(alloc, exit, said)
}

/// The line of JSON that says that memory ran out.
pub fn memory_json() -> &'static str
    ensures { result.now ≡ ending_json memory_ending }
{
    "{\"exit\":9,\"line\":\"out of memory\\n\"}\n"
}

impl Ending {
    ghost use Rattle.std.specs.Prelude.{◌≡◌, IfOk, string_bytes};
    ghost use Rattle.run_status.specs.Endings.{ending_exit, ending_json, ending_line};

    /// The exit status of the program.
    pub fn exit_status(&self) -> u8
        ensures { result ≡ ending_exit self.now }
    {
        match self {
            Ending::As(status) => status.exit_status(),
            Ending::ListFault | Ending::Closed => 7,
            Ending::ClosedQuietly => 0,
        }
    }

    /// The line of the report, with its line feed; of a job that was done whole, and of one that ended quietly, there is none.
    pub fn line(&self, alloc: Global) -> Mem<String>
        ensures { IfOk result (λ line. string_bytes line ≡ ending_line self.now) }
    {
        match self {
            Ending::As(status) => status.line(alloc),
            Ending::ListFault => Ok(String::from_str(alloc, "write fault: index\n")?),
            Ending::Closed => Ok(String::from_str(alloc, "closed: frames\n")?),
            Ending::ClosedQuietly => Ok(String::new(alloc)),
        }
    }

    /// The same as a line of JSON: an object of the exit status and the line. Where there is no line there is no object.
    pub fn json(&self, alloc: Global) -> Mem<String>
        ensures { IfOk result (λ text. string_bytes text ≡ ending_json self.now) }
    {
        let said = self.line(alloc)?;
        told_object(alloc, self.exit_status(), said.as_str())
    }
}
