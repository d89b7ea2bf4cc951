//! The generated script.

ghost use Rattle.std.specs.Prelude.{◌≡◌, ◌++◌, IfOk, OnOk};
ghost use Rattle.generated_script.specs.Generated.{generated, header};

use crate::draws::Draws;
use crate::lines::{draw_line, line_text};
use ass_num::Mem;
use std::alloc::Global;

/// Adds the lines before the events.
fn add_header(script: &mut Vec<u8>) -> Mem<()>
    ensures { OnOk result (script.new.items ≡ script.old.items ++ header) }
{
    script.extend_from_slice(
        b"[Script Info]\nScriptType: v4.00+\nPlayResX: 320\nPlayResY: 180\nWrapStyle: 0\n",
    )?;
    script.extend_from_slice(
        b"[V4+ Styles]\nStyle: Default,grid,12,&H00FFFFFF,&H000000FF,&H00000000,&H80000000,",
    )?;
    script.extend_from_slice(b"0,0,0,0,100,100,0,0,1,1,1,2,8,8,8,1\n[Events]\n")?;
    Ok(())
}

/// A script of so many events, in UTF-8. Their forms, places, sizes and lengths are drawn from the seed.
pub fn generated(alloc: Global, seed: u32, events: u32) -> Mem<Vec<u8>>
    ensures { IfOk result (λ script. script.items ≡ generated seed events) }
{
    let mut script = Vec::new(alloc);
    add_header(&mut script)?;
    let mut draws = Draws { state: seed };
    for i in 0..events {
        let numbers = draw_line(&mut draws);
        let line = line_text(alloc, i, &numbers)?;
        script.extend_from_slice(line.as_bytes())?;
    }
    Ok(script)
}
