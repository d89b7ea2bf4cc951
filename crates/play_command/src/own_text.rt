//! What the program tells of itself.

ghost use Rattle.play_command.specs.OwnTexts.{IsTextWorked};
ghost use Rattle.single_run.specs.Outcomes.{IsWriteCounted, status_if_put};
ghost use Rattle.single_run.specs.Runs.{sink_change};

use ass_io::Sink;
use single_run::{Outcome, show};

/// The program and its version.
pub const VERSION: &str = "vimalorua 1.10.0\n";

/// Puts a text of the program to the frames sink, up to what is to be reported of that.
#[tactic(auto, using(crate::proofs::TextLemmas::shown_is_worked))]
pub fn tell<F: Sink>(text: &str, frames: &mut F) -> Outcome
    ensures worked { IsTextWorked text.now (sink_change (F.state frames.old) (F.state frames.new)) result }
    ensures write { IsWriteCounted (status_if_put result) (F.state frames.old).faults (F.state frames.new).faults }
{
    Outcome::Ended(show(text.as_bytes(), frames))
}
