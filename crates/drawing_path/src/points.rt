//! The points behind the letter of a command.

ghost use Rattle.std.specs.Prelude.{◌≡◌, IfOk};
ghost use Rattle.drawing_path.specs.Runs.{IsPointRun, AddsNumber, command_at};

use crate::command::{Command, command_of};
use ass_num::{Mem, Milli, Point, read_milli};

/// The command whose letter stands at a place, if one does.
pub fn command_at(text: &[u8], at: usize) -> Option<Command>
    ensures { result ≡ command_at text.now at }
{
    command_of(*text.get(at)?)
}

/// Adds a number to points: the second of two makes a point with the one that waits.
fn add_number(points: &mut Vec<Point>, waiting: Option<Milli>, number: Milli) -> Mem<Option<Milli>>
    ensures { IfOk result (λ left. AddsNumber points.old.items waiting number points.new.items left) }
{
    match waiting {
        None => Ok(Some(number)),
        Some(x) => {
            points.push(Point { x, y: number })?;
            Ok(None)
        }
    }
}

/// Reads the numbers up to the next letter of a command or the end, and says how many bytes they
/// take. The points that they pair to take the place of those in `points`.
pub fn read_points(text: &[u8], points: &mut Vec<Point>) -> Mem<usize>
    ensures { IfOk result (λ len. IsPointRun text.now len points.new.items) }
{
    points.clear();
    let mut waiting: Option<Milli> = None;
    let mut at = 0;
    while at < text.len() {
        if command_of(text[at]).is_some() {
            return Ok(at);
        }
        if let Some((number, len)) = read_milli(&text[at..]) {
            waiting = add_number(points, waiting, number)?;
            at += len;
        } else {
            at += 1;
        }
    }
    Ok(at)
}
