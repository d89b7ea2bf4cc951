//! The names that a font answers to, one after the other.

ghost use Rattle.std.specs.Prelude.{◌≡◌, ◌++◌, length, flat_map, slice_index_or, IfOk, OnOk};
ghost use Rattle.bdf_font.specs.Sets.{no_font};
ghost use Rattle.vimalorua_c.specs.Calls.{IsCall};
ghost use Rattle.vimalorua_c.specs.Fonts.{AreNamesTold, ended_name, ended_names, placed_where_fit};

use crate::handle::Handle;
use crate::status::{BAD_CALL, CLOSED, DONE, OUT_OF_MEMORY};
use crate::taking::{put_back, take};
use ass_num::Mem;
use bdf_font::Font;
use player::Player;
use std::alloc::Global;

/// Adds a name, and a zero byte behind it.
fn add_name(names: &mut Vec<u8>, name: &[u8]) -> Mem<()>
    ensures { OnOk result (names.new.items ≡ names.old.items ++ ended_name name.now) }
{
    names.extend_from_slice(name)?;
    names.push(0)?;
    Ok(())
}

fn add_families(names: &mut Vec<u8>, font: &Font) -> Mem<()>
    ensures { OnOk result (names.new.items ≡ names.old.items ++ flat_map ended_name font.now.families) }
{
    for k in 0..font.family_count() {
        add_name(names, font.family(k))?;
    }
    Ok(())
}

fn add_full_names(names: &mut Vec<u8>, font: &Font) -> Mem<()>
    ensures { OnOk result (names.new.items ≡ names.old.items ++ flat_map ended_name font.now.full_names) }
{
    for k in 0..font.full_name_count() {
        add_name(names, font.full_name(k))?;
    }
    Ok(())
}

/// The names of a font: its families, then its full names.
fn names_of(alloc: Global, font: &Font) -> Mem<Vec<u8>>
    ensures { IfOk result (λ names. names.items ≡ ended_names font.now) }
{
    let mut names = Vec::new(alloc);
    add_families(&mut names, font)?;
    add_full_names(&mut names, font)?;
    Ok(names)
}

/// Puts bytes at the front of others, if there is room for all.
fn put_where_fit(out: &mut [u8], bytes: &[u8])
    ensures { out.new ≡ placed_where_fit bytes.now out.old }
{
    if bytes.len() <= out.len() {
        out[..bytes.len()].copy_from_slice(bytes);
    }
}

/// Tells the names of a font of a player: a status, and how many bytes they have.
fn names_told(alloc: Global, player: &Player, number: usize, out: &mut [u8]) -> (i32, usize)
    ensures { AreNamesTold number out.old out.new result.1 result.0 player.now player.now }
{
    if number >= player.font_count() {
        return (BAD_CALL, 0);
    }
    match names_of(alloc, player.font(number)) {
        Ok(names) => {
            put_where_fit(out, names.as_slice());
            (DONE, names.len())
        }
        Err(_) => (OUT_OF_MEMORY, 0),
    }
}

/// Tells the names of the font with this number, and how many bytes they have, with a zero byte behind each name. They are put
/// at the front of the caller's bytes, if there is room for all.
#[unsafe(no_mangle)]
pub extern "C" fn vimalorua_font_names_proved(
    alloc: Global,
    handle: &mut Handle,
    number: usize,
    out: &mut [u8],
    len: &mut usize,
) -> i32
    ensures { IsCall ⊥ ((out.new ≡ out.old) × (len.new ≡ 0)) (AreNamesTold number out.old out.new len.new result) result handle.old.value handle.new.value }
{
    *len = 0;
    let Ok(kept) = take(alloc, handle) else {
        return OUT_OF_MEMORY;
    };
    let (status, count) = match &kept.player {
        Some(player) => names_told(alloc, player, number, out),
        None => (CLOSED, 0),
    };
    put_back(handle, kept);
    *len = count;
    status
}
