//! The reading of a whole drawing.

ghost use Rattle.std.specs.Prelude.{IfOk};
ghost use Rattle.ass_num.specs.Paths.{IsPath};
ghost use Rattle.drawing_path.specs.Paths.{IsPathOf};

use crate::points::{command_at, read_points};
use crate::sketch::Sketch;
use ass_num::{Mem, Path};
use std::alloc::Global;

/// The path of a drawing (Aegisub tag reference, "Drawing commands"), its points in thousandths.
/// Every text has one: what isn't a command or a whole group of points behind one is skipped.
pub fn read_path(alloc: Global, text: &str) -> Mem<Path>
    ensures path { IfOk result (λ path. IsPathOf text.now path.segs) }
    ensures valid { IfOk result (λ path. IsPath path.segs) }
{
    let text = text.as_bytes();
    let mut points = Vec::new(alloc);
    let mut sketch = Sketch::new(alloc);
    // Numbers before the first letter belong to no command.
    let mut at = read_points(text, &mut points)?;
    while let Some(command) = command_at(text, at) {
        at += 1 + read_points(&text[at + 1..], &mut points)?;
        sketch.apply(alloc, command, points.as_slice())?;
    }
    Ok(Path {
        segs: sketch.into_segs(),
    })
}
