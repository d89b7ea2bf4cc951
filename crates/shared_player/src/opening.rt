//! Sharing a player, and splitting seats off.

ghost use Rattle.std.specs.Prelude.{◌≡◌, ◌<◌, true, IfOk, IfErr, OnOk, OnErr};
ghost use Rattle.std.specs.Arc.{arc_value};
ghost use Rattle.player.specs.Players.{new_player};
ghost use Rattle.shared_player.specs.Seats.{IsFirstSeat, IsShareRefused, IsSplitRefused, max_numbers, new_seat};
ghost use Rattle.turn_cell.specs.Passes.{split_pass};

use crate::refusals::{ShareRefusal, SplitRefusal};
use crate::seat::Seat;
use player::Player;
use std::alloc::Global;
use std::mem::ManuallyDrop;
use std::sync::Arc;
use track_history::Track;

impl Seat {
    /// The first seat: it has the script, the fonts, the budget, the caches and the listed images of a player, and the first
    /// pass of a new track. A player that something was fed to comes back, and so it does for out of memory.
    pub fn share(alloc: Global, player: Player) -> Result<Seat, (Player, ShareRefusal)>
        ensures seat { IfOk result (IsFirstSeat player) }
        ensures player { IfErr result (λ r. r.0 ≡ player) }
        ensures refused { IfErr result (λ r. IsShareRefused player r.1) }
    {
        if !player.is_unfed() {
            return Err((player, ShareRefusal::WasFed));
        }
        let Ok((track, pass)) = Track::open(alloc) else {
            return Err((player, ShareRefusal::OutOfMemory));
        };
        match Arc::new(alloc, track) {
            Ok(track) => Ok(Seat::of(player, track, pass, true)),
            Err(failed) => {
                failed.value.close(pass);
                Err((player, ShareRefusal::OutOfMemory))
            }
        }
    }

    /// Splits a new seat off the first one. It has seen what that one has, and has given nothing; its caches are its own, and
    /// empty. An `Err` changes nothing: all memory is taken before the pass is split.
    pub fn split(self, alloc: Global) -> (Seat, Result<Seat, SplitRefusal>)
        ensures new { IfOk result.1 (λ new. new ≡ new_seat self) }
        ensures first { OnOk result.1 (result.0 ≡ record self { track = split_pass self.track }) }
        ensures room { OnOk result.1 ((self.first ≡ true) × (self.track.next < max_numbers)) }
        ensures same { OnErr result.1 (result.0 ≡ self) }
        ensures refused { IfErr result.1 (IsSplitRefused self) }
    {
        if !self.first {
            return (self, Err(SplitRefusal::NotFirst));
        }
        let Ok(player) = self.player.unfed(alloc) else {
            return (self, Err(SplitRefusal::OutOfMemory));
        };
        let Ok(track) = Arc::try_clone(&self.track) else {
            return (self, Err(SplitRefusal::OutOfMemory));
        };
        self.split_into(player, track)
    }

    /// Splits the pass, and gives the new one to a seat with these parts.
    fn split_into(self, player: Player, track: Arc<Track>) -> (Seat, Result<Seat, SplitRefusal>)
        requires first { self.first ≡ true }
        requires player { player ≡ record (new_player self.script self.budget) { fonts = self.fonts } }
        requires track { arc_value track ≡ self.cell }
        ensures new { IfOk result.1 (λ new. new ≡ new_seat self) }
        ensures first { OnOk result.1 (result.0 ≡ record self { track = split_pass self.track }) }
        ensures room { OnOk result.1 (self.track.next < max_numbers) }
        ensures same { OnErr result.1 (result.0 ≡ self) }
        ensures refused { IfErr result.1 (IsSplitRefused self) }
    {
        let Seat {
            player: own,
            track: cell,
            pass,
            first: _,
        } = self;
        match cell.split(ManuallyDrop::into_inner(pass)) {
            Ok((pass, new)) => {
                let new = Seat::of(player, track, new, false);
                (Seat::of(own, cell, pass, true), Ok(new))
            }
            Err(pass) => {
                let seat = Seat::of(own, cell, pass, true);
                (seat, Err(SplitRefusal::TooMany))
            }
        }
    }
}
