//! Scripts from their bytes.

ghost use Rattle.std.specs.Prelude.{◌≡◌, ℕ, IfOk, Err};
ghost use Rattle.std.specs.Str.{IsValidUpTo};
ghost use Rattle.ass_script.specs.Ranges.{IsScript};
ghost use Rattle.ass_script.specs.Scripts.{IsScriptAnswer, script_of};
ghost use Rattle.ass_script.specs.declared.refusal.ScriptRefusal.TheVariants.{NotUtf8};

use crate::reading::Reading;
use crate::refusal::ScriptRefusal;
use crate::script::Script;
use crate::words::past_mark;
use simdutf8::compat::from_utf8;
use std::alloc::Global;

/// The script that bytes spell. `NotUtf8` names the length of the longest front that is UTF-8; `NoEvents` comes where
/// no line is the heading `[Events]`; `TooManyLines(1,000,000)` and `TooManyStyles(10,000)` come at the line after that
/// many, whichever line comes first.
pub fn read_script(alloc: Global, bytes: &[u8]) -> Result<Script, ScriptRefusal>
    ensures answer { IsScriptAnswer result (script_of bytes.now) }
    ensures front { (n : ℕ) → result ≡ Err (NotUtf8 n) → IsValidUpTo bytes.now n }
    ensures script { IfOk result IsScript }
{
    let text = match from_utf8(bytes) {
        Ok(text) => text,
        Err(fault) => return Err(ScriptRefusal::NotUtf8(fault.valid_up_to())),
    };
    read_text(alloc, text)
}

fn read_text(alloc: Global, text: &str) -> Result<Script, ScriptRefusal>
    ensures answer { IsScriptAnswer result (script_of text.now) }
    ensures script { IfOk result IsScript }
{
    let mut reading = Reading::new(alloc);
    for line in past_mark(text).lines() {
        reading.line(alloc, line)?;
    }
    reading.made(alloc)
}
