//! The lines of a report.

ghost use Rattle.std.specs.Prelude.{◌≡◌, IfOk, string_bytes};
ghost use Rattle.single_run.specs.Lines.{box_text, change_line, kind_number};

use ass_num::Mem;
use frame_change::{ChangeKind, Changed};
use std::alloc::Global;

/// The number of a change, as `detect_change` of `ass_render_frame` has it (libass `ass.h`).
pub fn kind_number(kind: ChangeKind) -> u8
    ensures { result ≡ kind_number kind }
{
    match kind {
        ChangeKind::Same => 0,
        ChangeKind::Moved => 1,
        ChangeKind::Other => 2,
    }
}

/// A box in words.
fn box_text(alloc: Global, changed: Option<Changed>) -> Mem<String>
    ensures { IfOk result (λ text. string_bytes text ≡ box_text changed) }
{
    match changed {
        None => Ok(String::from_str(alloc, "none")?),
        Some(Changed { x1, y1, x2, y2 }) => Ok(format!(in alloc; "{x1} {y1} {x2} {y2}")?),
    }
}

/// The line on what changed up to an instant.
pub fn change_line(alloc: Global, t: u64, kind: ChangeKind, changed: Option<Changed>) -> Mem<String>
    ensures { IfOk result (λ line. string_bytes line ≡ change_line t kind changed) }
{
    let number = kind_number(kind);
    let place = box_text(alloc, changed)?;
    let place = place.as_str();
    Ok(format!(in alloc; "t={t} change={number} box {place}\n")?)
}
