//! Opening and closing handles, and their budget.

ghost use Rattle.std.specs.Prelude.{◌≡◌, ◌≢◌, ◌≤◌, ◌<◌, length, IfOk, IfErr};
ghost use Rattle.ass_num.specs.Limits.{max_file_bytes};
ghost use Rattle.evict_core.specs.Machine.{max_budget};
ghost use Rattle.vimalorua_c.specs.Calls.{IsBudgetSet, IsCall, IsNewHandle, IsOpened, IsScriptTold};
ghost use Rattle.vimalorua_c.specs.Statuses as rule;

use crate::handle::Handle;
use crate::status::{BAD_CALL, CLOSED, DONE, OUT_OF_MEMORY, Told, script_told, told_at};
use crate::taking::{handle_of, put_back, take};
use player::Player;
use std::alloc::Global;

/// The most bytes of a script or of a file of fonts.
pub(crate) const MAX_FILE_BYTES: usize = 67_108_864;

/// The most bytes of a cache.
pub(crate) const MAX_BUDGET: u64 = 1 << 40;

/// The interface's number.
#[unsafe(no_mangle)]
pub extern "C" fn vimalorua_version() -> u32
    ensures { result ≡ 1 }
{
    1
}

/// A handle of a player of the script that bytes spell.
pub(crate) fn opened(alloc: Global, script: &[u8], budget: u64) -> Result<Box<Handle>, Told>
    requires script { length script.now ≤ max_file_bytes }
    requires budget { budget ≤ max_budget }
    ensures opened { IfOk result (λ handle. IsNewHandle script.now budget handle.value) }
    ensures refused { IfErr result (IsScriptTold script.now) }
{
    let player = match Player::open(alloc, script, budget) {
        Ok(player) => player,
        Err(refusal) => return Err(script_told(refusal)),
    };
    let Ok(handle) = handle_of(alloc, Some(player)) else {
        return Err(told_at(OUT_OF_MEMORY, 0));
    };
    match Box::new(alloc, handle) {
        Ok(handle) => Ok(handle),
        Err(failed) => {
            drop(failed.value.into_box());
            Err(told_at(OUT_OF_MEMORY, 0))
        }
    }
}

/// Opens a handle from the bytes of a script, which it keeps nothing of, with a budget for each of three caches.
#[unsafe(no_mangle)]
pub extern "C" fn vimalorua_open_proved(
    alloc: Global,
    script: &[u8],
    budget: u64,
    out: &mut *mut Handle,
    place: &mut usize,
) -> i32
    ensures opened { IsOpened script.now budget result place.new }
    ensures else_same { result ≢ rule.done_status → out.new ≡ out.old }
{
    *place = 0;
    if script.len() > MAX_FILE_BYTES || budget > MAX_BUDGET {
        return BAD_CALL;
    }
    match opened(alloc, script, budget) {
        Ok(handle) => {
            *out = Box::into_raw(handle);
            DONE
        }
        Err(told) => {
            *place = told.place;
            told.status
        }
    }
}

/// Sets the budget of each cache.
#[unsafe(no_mangle)]
pub extern "C" fn vimalorua_set_budget(alloc: Global, handle: &mut Handle, budget: u64) -> i32
    ensures { IsCall (max_budget < budget) (Unit {0}) (IsBudgetSet budget result) result handle.old.value handle.new.value }
{
    if budget > MAX_BUDGET {
        return BAD_CALL;
    }
    let Ok(kept) = take(alloc, handle) else {
        return OUT_OF_MEMORY;
    };
    let mut kept = kept;
    let status = match &mut kept.player {
        Some(player) => {
            player.set_budget(budget);
            DONE
        }
        None => CLOSED,
    };
    put_back(handle, kept);
    status
}

/// Closes a handle. The block that it stood in is the caller's, to be freed.
#[unsafe(no_mangle)]
pub extern "C" fn vimalorua_shut(handle: Handle) {
    drop(handle.into_box());
}
