//! Taking out of a handle what stands behind it, and putting it back.

ghost use Rattle.std.specs.Prelude.{◌≡◌, None, IfOk, OnErr};

use crate::handle::Handle;
use crate::kept::HeldPlayer;
use ass_num::Mem;
use player::Player;
use std::alloc::Global;
use std::mem::replace;

/// A handle that keeps this.
pub fn handle_of(alloc: Global, player: Option<Player>) -> Mem<Handle>
    ensures { IfOk result (λ handle. handle.value.player ≡ player) }
{
    let kept = Box::new(alloc, HeldPlayer { player })?;
    Ok(Handle::of(kept))
}

/// Takes what stands behind a handle, which keeps no player then. For out of memory it stays.
pub fn take(alloc: Global, handle: &mut Handle) -> Mem<Box<HeldPlayer>>
    ensures taken { IfOk result (λ kept. kept.value ≡ handle.old.value) }
    ensures err { OnErr result (handle.new.value ≡ handle.old.value) }
{
    let none = handle_of(alloc, None)?;
    Ok(replace(handle, none).into_box())
}

/// Puts behind a handle what it is to keep. What stood there is dropped.
pub fn put_back(handle: &mut Handle, kept: Box<HeldPlayer>)
    ensures { handle.new.value ≡ kept.value }
{
    let before = replace(handle, Handle::of(kept));
    drop(before.into_box());
}
