//! What both programs show: a font with two letters, and a picture as rows of signs.

ghost use Rattle.std.specs.Prelude.{◌<◌, ◌≤◌};

use ass_num::Size;
use std::alloc::{AllocError, Global};
use std::io;

pub const FONT: &[u8] = b"STARTFONT 2.1
FONTBOUNDINGBOX 6 7 0 0
STARTCHAR H
ENCODING 72
BBX 5 7 0 0
BITMAP
88
88
88
F8
88
88
88
ENDCHAR
STARTCHAR i
ENCODING 105
BBX 3 7 0 0
BITMAP
40
00
C0
40
40
40
E0
ENDCHAR
ENDFONT
";

pub const FRAME: Size = Size { w: 13, h: 9 };

/// The signs of a row of pixels of so many bytes: a dot where all of them are 0.
fn signs_of(alloc: Global, row: &[u8], pixel_bytes: usize) -> Result<String, AllocError>
    requires { 0 < pixel_bytes }
{
    let mut signs = String::new(alloc);
    for pixel in row.chunks(pixel_bytes) {
        let is_clear = pixel.iter().all(|byte| *byte == 0);
        signs.push(if is_clear { '.' } else { '#' })?;
    }
    Ok(signs)
}

/// Prints the rows of a picture of so many bytes a pixel.
pub fn show<R: Print>(rt: &R, alloc: Global, pixels: &[u8], pixel_bytes: usize) -> io::Result<()>
    requires some { 0 < pixel_bytes }
    requires few { pixel_bytes ≤ 4 }
{
    for row in pixels.chunks(pixel_bytes * FRAME.w as usize) {
        let signs = signs_of(alloc, row, pixel_bytes)?;
        println!(rt; "{signs}")?;
    }
    Ok(())
}
