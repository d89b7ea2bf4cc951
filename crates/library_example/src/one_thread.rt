//! A player for one thread: a script and a font in memory, and the picture of an instant as rows of signs.

ghost use Rattle.ass_num.specs.Limits.{IsWithin, max_instant};

use crate::showing::{FONT, FRAME, show};
use alpha_canvas::AlphaForm;
use ass_io::MAX_FILE_BYTES;
use ass_num::Items;
use bdf_font::read_fonts;
use blend::Canvas;
use player::Player;
use std::alloc::Global;
use std::io;

const SCRIPT: &[u8] = b"[Script Info]
PlayResX: 13
PlayResY: 9
[Events]
Dialogue: 0,0:00:01.00,0:00:02.00,,,0,0,0,,{\\an7\\pos(1,1)\\fs7\\bord0\\shad0}Hi
";

/// Gives a player the fonts of a file, if its bytes are some. Fonts may keep them, so they are copied.
fn add_fonts(alloc: Global, player: &mut Player, file: &[u8]) -> bool {
    if file.len() > MAX_FILE_BYTES || player.font_count() > 0 {
        return false;
    }
    let Ok(bytes) = Vec::from_slice(alloc, file) else {
        return false;
    };
    match read_fonts(alloc, Items::from_vec(bytes)) {
        Ok(fonts) => player.add_fonts(alloc, fonts).is_ok(),
        Err(_) => false,
    }
}

/// A player of the script, with the font and the script's own lines.
fn opened(alloc: Global) -> Option<Player> {
    if SCRIPT.len() > MAX_FILE_BYTES {
        return None;
    }
    let mut player = match Player::open(alloc, SCRIPT, 1_000_000) {
        Ok(player) => player,
        Err(_) => return None,
    };
    if add_fonts(alloc, &mut player, FONT) && player.feed_lines(alloc).is_ok() {
        Some(player)
    } else {
        None
    }
}

/// The picture of an instant in milliseconds. There is none without a font, or where memory runs out.
fn picture(alloc: Global, player: &mut Player, t: i64) -> Option<Canvas>
    requires { IsWithin max_instant t }
{
    if player.font_count() == 0 {
        return None;
    }
    player.draw(alloc, t, &FRAME).ok()
}

/// The same picture over nothing, four bytes a pixel.
fn picture_with_alpha(alloc: Global, player: &mut Player, t: i64) -> Option<Vec<u8>>
    requires { IsWithin max_instant t }
{
    if player.font_count() == 0 {
        return None;
    }
    player
        .draw_alpha(alloc, t, &FRAME, AlphaForm::Straight)
        .ok()
}

/// Prints the picture of an instant, on black and over nothing.
pub fn run<R: Print>(rt: &R, alloc: Global) -> io::Result<()> {
    let Some(mut player) = opened(alloc) else {
        return println!(rt; "no player");
    };
    match picture(alloc, &mut player, 1_500) {
        Some(canvas) => show(rt, alloc, canvas.pixels(), 3)?,
        None => println!(rt; "no picture")?,
    }
    match picture_with_alpha(alloc, &mut player, 1_500) {
        Some(bytes) => show(rt, alloc, bytes.as_slice(), 4),
        None => println!(rt; "no picture with alpha"),
    }
}
