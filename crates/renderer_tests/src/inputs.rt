//! What is shown: events of one letter each, on a renderer whose font has the letters from `a` to `f`.

ghost use Rattle.std.specs.Prelude.{◌≤◌, IfSome};
ghost use Rattle.std.specs.Arc.{arc_value};
ghost use Rattle.ass_script.specs.Ranges.{IsScript};
ghost use Rattle.bdf_font.specs.Ranges.{IsFont};
ghost use Rattle.evict_core.specs.Machine.{max_budget};
ghost use Rattle.text_layout.specs.Fonts.{IsLayoutFontSet};
ghost use Rattle.renderer_tests.specs.Passes.{IsFirstOfRenderer};

use ass_io::MAX_FILE_BYTES;
use ass_num::{Items, Size};
use ass_script::{Script, read_script};
use bdf_font::{Font, FontSet};
use generated_script::grid_font;
use renderer::{RenderPass, Renderer};
use std::alloc::{AllocError, Global};
use std::sync::Arc;

/// A script without lines, whose picture has room for one letter with a pixel around it.
pub const SMALL: &[u8] = b"[Script Info]
PlayResX: 7
PlayResY: 9
[Events]
";

/// One whose picture has room for eight letters side by side, four times.
pub const WIDE: &[u8] = b"[Script Info]
PlayResX: 49
PlayResY: 33
[Events]
";

pub const SMALL_FRAME: Size = Size { w: 7, h: 9 };

pub const WIDE_FRAME: Size = Size { w: 49, h: 33 };

/// A script that is read.
fn script_of(alloc: Global, text: &[u8]) -> Option<Arc<Script>>
    ensures { IfSome result (λ script. IsScript (arc_value script)) }
{
    if text.len() > MAX_FILE_BYTES {
        return None;
    }
    match read_script(alloc, text) {
        Ok(script) => Arc::new(alloc, script).ok(),
        Err(_) => None,
    }
}

/// A set of one font.
fn set_of(alloc: Global, font: Font) -> Option<Arc<FontSet>>
    requires { IsFont font }
    ensures { IfSome result (λ set. IsLayoutFontSet (arc_value set).fonts) }
{
    let mut fonts = Items::new(alloc);
    match fonts.push(font) {
        Ok(()) => Arc::new(alloc, FontSet { fonts }).ok(),
        Err(_) => None,
    }
}

/// The font, as a set.
fn letters(alloc: Global) -> Option<Arc<FontSet>>
    ensures { IfSome result (λ set. IsLayoutFontSet (arc_value set).fonts) }
{
    match grid_font(alloc) {
        Ok(font) => set_of(alloc, font),
        Err(_) => None,
    }
}

/// A renderer of a script with the font, and its first pass.
pub fn opened(alloc: Global, text: &[u8], budget: u64) -> Option<(Renderer, RenderPass)>
    requires { budget ≤ max_budget }
    ensures { IfSome result (λ r. IsFirstOfRenderer r.0 r.1) }
{
    let Some(script) = script_of(alloc, text) else {
        return None;
    };
    match letters(alloc) {
        Some(fonts) => Renderer::open(alloc, script, fonts, budget).ok(),
        None => None,
    }
}

/// The chunk of the event of a number: an `a`, at the number's place among eight in a row.
pub fn letter_chunk(alloc: Global, order: u32) -> Result<String, AllocError> {
    let x = 1 + order % 8 * 6;
    let y = 1 + order / 8 % 4 * 8;
    format!(in alloc; "{order},0,,,0,0,0,,{{\\an7\\pos({x},{y})\\fs8\\bord0\\shad0}}a")
}

/// That of a letter that is stretched by the number, so that each number has a mask of its own.
pub fn stretched_chunk(alloc: Global, order: u32) -> Result<String, AllocError> {
    let scale = 100 + order % 1000;
    format!(in alloc; "{order},0,,,0,0,0,,{{\\an7\\pos(1,1)\\fs8\\fscx{scale}\\bord0\\shad0}}a")
}

/// The rows of a picture that is so wide, each behind a bar: a dot for each black pixel.
pub fn signs_of(alloc: Global, pixels: &[u8], width: usize) -> Result<String, AllocError> {
    let mut signs = String::new(alloc);
    let mut column = width;
    for pixel in pixels.chunks(3) {
        if column == width {
            signs.push('|')?;
            column = 0;
        }
        let is_black = pixel.iter().all(|byte| *byte == 0);
        signs.push(if is_black { '.' } else { '#' })?;
        column = column.wrapping_add(1);
    }
    Ok(signs)
}
