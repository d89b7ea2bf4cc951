//! The fonts of files and of scripts behind those of a handle.

ghost use Rattle.std.specs.Prelude.{◌≡◌, ◌≢◌, ◌≤◌, length, All, Err, IfOk};
ghost use Rattle.ass_num.specs.Limits.{max_file_bytes};
ghost use Rattle.bdf_font.specs.Files.{IsFontFileAnswer};
ghost use Rattle.bdf_font.specs.Limits.{max_fonts};
ghost use Rattle.bdf_font.specs.Ranges.{IsFont};
ghost use Rattle.bdf_font.specs.declared.cause.FontFileRefusal.TheVariants.{Lines};
ghost use Rattle.vimalorua_c.specs.Calls.{IsCall, IsLongFile};
ghost use Rattle.vimalorua_c.specs.Fonts.{AreFontsAdded, AreScriptFontsTold};
ghost use Rattle.vimalorua_c.specs.Statuses as rule;

use crate::handle::Handle;
use crate::opening::MAX_FILE_BYTES;
use crate::status::{
    BAD_CALL, CLOSED, DONE, MANY_FONTS, MAX_FONTS, OUT_OF_MEMORY, Told, embedded_told, font_told,
    told_at,
};
use crate::taking::{put_back, take};
use ass_num::Items;
use bdf_font::{Font, FontFileRefusal, FontRefusal, read_fonts};
use player::Player;
use std::alloc::Global;

/// The fonts of a file's bytes, which are the caller's. Fonts may keep their bytes, so they are copied.
fn fonts_of(alloc: Global, bytes: &[u8]) -> Result<Items<Font>, FontFileRefusal>
    requires { length bytes.now ≤ max_file_bytes }
    ensures answer { result ≢ Err (Lines FontRefusal.OutOfMemory) → IsFontFileAnswer bytes.now result }
    ensures fonts { IfOk result (All IsFont) }
    ensures few { IfOk result (λ fonts. length fonts ≤ max_fonts) }
{
    match Vec::from_slice(alloc, bytes) {
        Ok(copy) => read_fonts(alloc, Items::from_vec(copy)),
        Err(_) => Err(FontFileRefusal::Lines(FontRefusal::OutOfMemory)),
    }
}

/// Adds the fonts of a file to a player: what is told, and how many they are.
fn fonts_added(alloc: Global, player: &mut Player, file: &[u8]) -> (Told, usize)
    requires { length file.now ≤ max_file_bytes }
    ensures { AreFontsAdded file.now result.0 result.1 player.old player.new }
{
    let first = player.font_count();
    if first >= MAX_FONTS {
        return (told_at(MANY_FONTS, MAX_FONTS), 0);
    }
    let fonts = match fonts_of(alloc, file) {
        Ok(fonts) => fonts,
        Err(refusal) => return (font_told(refusal), 0),
    };
    let count = fonts.len();
    if first + count > MAX_FONTS {
        return (told_at(MANY_FONTS, MAX_FONTS), 0);
    }
    match player.add_fonts(alloc, fonts) {
        Ok(()) => (told_at(DONE, first), count),
        Err(_) => (told_at(OUT_OF_MEMORY, 0), 0),
    }
}

/// Adds the fonts that a script holds to a player: what is told, and how many they are.
fn script_fonts_added(alloc: Global, player: &mut Player, script: &[u8]) -> (Told, usize)
    requires { length script.now ≤ max_file_bytes }
    ensures { AreScriptFontsTold script.now result.0 result.1 player.old player.new }
{
    let first = player.font_count();
    match player.add_script_fonts(alloc, script) {
        Ok(count) => (told_at(DONE, first), count),
        Err(refusal) => (embedded_told(refusal), 0),
    }
}

/// Adds the fonts of a file from its bytes, and tells the number of the first and how many they are.
#[unsafe(no_mangle)]
pub extern "C" fn vimalorua_add_fonts_proved(
    alloc: Global,
    handle: &mut Handle,
    file: &[u8],
    place: &mut usize,
    count: &mut usize,
) -> i32
    ensures { IsCall (IsLongFile file.now) ((place.new ≡ 0) × (count.new ≡ 0)) (AreFontsAdded file.now (rule.told result place.new) count.new) result handle.old.value handle.new.value }
{
    *place = 0;
    *count = 0;
    if file.len() > MAX_FILE_BYTES {
        return BAD_CALL;
    }
    let Ok(kept) = take(alloc, handle) else {
        return OUT_OF_MEMORY;
    };
    let mut kept = kept;
    let (told, added) = match &mut kept.player {
        Some(player) => fonts_added(alloc, player, file),
        None => (told_at(CLOSED, 0), 0),
    };
    put_back(handle, kept);
    *place = told.place;
    *count = added;
    told.status
}

/// Adds the fonts that a script holds from its bytes, and tells the same.
#[unsafe(no_mangle)]
pub extern "C" fn vimalorua_add_script_fonts_proved(
    alloc: Global,
    handle: &mut Handle,
    script: &[u8],
    place: &mut usize,
    count: &mut usize,
) -> i32
    ensures { IsCall (IsLongFile script.now) ((place.new ≡ 0) × (count.new ≡ 0)) (AreScriptFontsTold script.now (rule.told result place.new) count.new) result handle.old.value handle.new.value }
{
    *place = 0;
    *count = 0;
    if script.len() > MAX_FILE_BYTES {
        return BAD_CALL;
    }
    let Ok(kept) = take(alloc, handle) else {
        return OUT_OF_MEMORY;
    };
    let mut kept = kept;
    let (told, added) = match &mut kept.player {
        Some(player) => script_fonts_added(alloc, player, script),
        None => (told_at(CLOSED, 0), 0),
    };
    put_back(handle, kept);
    *place = told.place;
    *count = added;
    told.status
}
