//! What lines of JSON are put together from.

ghost use Rattle.std.specs.Prelude.{◌≡◌, ◌++◌, [], IfOk, OnOk, string_bytes};
ghost use Rattle.json_lines.specs.Members.{json_line, number_array, number_member, text_member};

use ass_num::Mem;
use json::Writer;
use std::alloc::Global;

/// A line without tokens.
pub fn new_line(alloc: Global) -> Writer
    ensures before { result.before ≡ [] }
    ensures tokens { result.tokens ≡ [] }
{
    Writer::new(Vec::new(alloc))
}

/// The text of a line, with its line feed.
pub fn line_of(line: Writer) -> Mem<String>
    requires { line.before ≡ [] }
    ensures { IfOk result (λ text. string_bytes text ≡ json_line line.tokens) }
{
    match String::from_utf8(line.into_inner()) {
        Ok(text) => {
            let mut text = text;
            text.push_str("\n")?;
            Ok(text)
        }
        Err(_) => unreachable!(),
    }
}

/// Adds a member that is a number.
#[inline(never)]
pub fn add_number(name: &str, n: u64, line: &mut Writer) -> Mem<()>
    ensures before { line.new.before ≡ line.old.before }
    ensures tokens { OnOk result (line.new.tokens ≡ line.old.tokens ++ number_member name.now n) }
{
    line.key(name)?;
    line.u64(n)?;
    Ok(())
}

/// Adds a member that is a text.
#[inline(never)]
pub fn add_text(name: &str, text: &str, line: &mut Writer) -> Mem<()>
    ensures before { line.new.before ≡ line.old.before }
    ensures tokens { OnOk result (line.new.tokens ≡ line.old.tokens ++ text_member name.now text.now) }
{
    line.key(name)?;
    line.string(text)?;
    Ok(())
}

/// Adds an array of numbers.
#[inline(never)]
pub fn add_numbers(numbers: &[u32], line: &mut Writer) -> Mem<()>
    ensures before { line.new.before ≡ line.old.before }
    ensures tokens { OnOk result (line.new.tokens ≡ line.old.tokens ++ number_array numbers.now) }
{
    line.begin_array()?;
    for number in numbers {
        line.u64(u64::from(*number))?;
    }
    line.end_array()?;
    Ok(())
}
