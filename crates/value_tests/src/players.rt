//! A player of a small script: each call once, and each finds its memory.

ghost use Rattle.ass_num.specs.Limits.{IsWithin, max_instant};

use ass_num::{Items, Size};
use bdf_font::read_fonts;
use frame_change::ChangeKind;
use player::Player;
use std::alloc::Global;
use std::test::Fail;
use track_history::{Feed, Flushed};

const SCRIPT: &[u8] =
    b"[Script Info]\nPlayResX: 16\nPlayResY: 12\n[Events]\nDialogue: 0,0:00:00.00,0:00:01.00,,,0,0,0,,{\\pos(4,8)}a\n";

/// A glyph of 2 by 2 pixels.
const FONT: &[u8] =
    b"STARTFONT 2.1\nFONTBOUNDINGBOX 8 8 0 0\nSTARTCHAR a\nENCODING 97\nBBX 2 2 0 0\nBITMAP\nC0\nC0\nENDCHAR\nENDFONT\n";

/// Ten pixels to the right in a second.
pub(crate) const CHUNK: &[u8] = b"7,1,,,0,0,0,,{\\fs8\\bord0\\shad0\\move(2,8,12,8)}a";

pub(crate) const FRAME: Size = Size { w: 16, h: 12 };

/// The script's player, without a font.
pub(crate) fn opened(alloc: Global) -> Result<Player, Fail> {
    if SCRIPT.len() > 1_000 {
        return Err("the script is long".into());
    }
    match Player::open(alloc, SCRIPT, 1_048_576) {
        Ok(player) => Ok(player),
        Err(_) => Err("it is no script".into()),
    }
}

pub(crate) fn adds_a_font(alloc: Global, player: &mut Player) -> bool {
    if FONT.len() > 1_000 || player.font_count() > 0 {
        return false;
    }
    let Ok(bytes) = Vec::from_slice(alloc, FONT) else {
        return false;
    };
    match read_fonts(alloc, Items::from_vec(bytes)) {
        Ok(fonts) => player.add_fonts(alloc, fonts).is_ok(),
        Err(_) => false,
    }
}

/// Whether the script's line and a chunk from 1000 ms on become events.
fn feeds(alloc: Global, player: &mut Player) -> bool {
    if CHUNK.len() > 1_000 || player.feed_lines(alloc).is_err() {
        return false;
    }
    player.feed(alloc, CHUNK, 1_000, 1_000) == Feed::Accepted(1)
}

/// Whether the list of an instant differs so from the one before.
fn lists(alloc: Global, player: &mut Player, t: i64, change: ChangeKind) -> bool
    requires { IsWithin max_instant t }
{
    if player.font_count() == 0 {
        return false;
    }
    match player.images(alloc, t, &FRAME) {
        Ok(kind) => kind == change,
        Err(_) => false,
    }
}

/// How many bytes the picture of a second has, where nothing is kept.
fn drawn(alloc: Global, player: &mut Player) -> usize {
    player.set_budget(0);
    if player.font_count() == 0 {
        return 0;
    }
    match player.draw(alloc, 1_000, &FRAME) {
        Ok(canvas) => canvas.pixels().len(),
        Err(_) => 0,
    }
}

/// Whether the lists of three instants change as they should.
fn changes(alloc: Global, player: &mut Player) -> bool {
    lists(alloc, player, 500, ChangeKind::Other)
        && lists(alloc, player, 1_000, ChangeKind::Other)
        && lists(alloc, player, 1_500, ChangeKind::Moved)
}

/// The images and bytes of the last list, the bytes of a picture, and the entries behind a flush of two events.
fn counts(alloc: Global, player: &mut Player) -> [usize; 4] {
    let (images, bytes) = (player.listed_images().len(), player.listed_bytes());
    let picture = drawn(alloc, player);
    if player.flush() == Flushed::Done(2) {
        return [images, bytes, picture, player.entries()];
    }
    [images, bytes, picture, 0]
}

/// Whether a new player's calls answer as they should, and what they count.
fn answers(alloc: Global) -> Result<(bool, [usize; 4]), Fail> {
    let mut player = opened(alloc)?;
    let fed = adds_a_font(alloc, &mut player) && feeds(alloc, &mut player);
    let changed = changes(alloc, &mut player);
    Ok((fed && changed, counts(alloc, &mut player)))
}

#[test]
fn each_call_of_a_player(rt: HostRuntime) -> Result<(), Fail> {
    let (right, counts) = answers(rt.alloc())?;
    assert!(rt; right);
    assert_eq!(rt; counts, [1, 4, 576, 3]);
    Ok(())
}
