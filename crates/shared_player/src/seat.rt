//! Seats.

ghost use Rattle.std.specs.Prelude.{◌≡◌, ◌<◌, ◌≤◌, length, slice_index_or};
ghost use Rattle.std.specs.Arc.{arc_value};
ghost use Rattle.bdf_font.specs.Sets.{no_font};
ghost use Rattle.evict_core.specs.Machine.{max_budget};
ghost use Rattle.player.specs.Players.{mask_bytes};
ghost use Rattle.shared_player.specs.Seats.{IsSeat, seat_of};

use bdf_font::Font;
use plain_images::PlainImage;
use player::Player;
use std::marker::Model;
use std::mem::ManuallyDrop;
use std::sync::Arc;
use track_history::{Track, TrackPass};

/// One thread's part in a track that many share: the script and the fonts that all seats have, a pass of the track, the
/// images that it listed last, and caches of its own. None of its calls waits. Seats are dropped in any order, and the
/// last one frees what they share. docs/EMBEDDING.md says how a program uses them.
#[derive(Drop)]
pub struct Seat {
    // Nothing is fed to it: it has all of a seat but the track.
    pub(crate) player: Player,
    pub(crate) track: Arc<Track>,
    // A pass has no bytes: nothing is lost where it isn't joined.
    pub(crate) pass: ManuallyDrop<TrackPass>,
    pub(crate) first: bool,
}

impl Model for Seat {
    ghost use Rattle.std.specs.Arc.{arc_value};
    ghost use Rattle.core.specs.Mem.{manually_drop_value};
    ghost use Rattle.shared_player.specs.Seats.{IsSeat, SharedSeatView, seat_of};

    ghost Value = { SharedSeatView };

    ghost view = { λ s. seat_of s.player (arc_value s.track) (manually_drop_value s.pass) s.first };

    ghost invariant = { λ s. IsSeat s.player (arc_value s.track) (manually_drop_value s.pass) s.first };
}

impl Seat {
    /// A seat of these parts.
    pub(crate) fn of(player: Player, track: Arc<Track>, pass: TrackPass, first: bool) -> Seat
        requires { IsSeat player (arc_value track) pass first }
        ensures { result ≡ seat_of player (arc_value track) pass first }
    {
        let pass = unsafe { ManuallyDrop::new_unchecked(pass) };
        Seat {
            player,
            track,
            pass,
            first,
        }
    }

    /// Whether it is the first seat, off which others are split.
    pub fn is_first(&self) -> bool
        ensures { result ≡ self.now.first }
    {
        self.first
    }

    /// How many fonts it has.
    pub fn font_count(&self) -> usize
        ensures { result ≡ length self.now.fonts }
    {
        self.player.font_count()
    }

    /// A font, by its number.
    pub fn font(&self, number: usize) -> &Font
        requires { number < length self.now.fonts }
        ensures { result.now ≡ slice_index_or self.now.fonts number no_font }
    {
        self.player.font(number)
    }

    /// How many Dialogue lines its script has.
    pub fn line_count(&self) -> usize
        ensures { result ≡ length self.now.script.lines }
    {
        self.player.line_count()
    }

    /// A new budget for each of its caches, at most 2^40 (`ass_set_cache_limits` in libass `ass.h`). As few entries are
    /// evicted as it wants.
    pub fn set_budget(&mut self, budget: u64)
        requires { budget ≤ max_budget }
        ensures { self.new ≡ record self.old { budget = budget } }
    {
        self.player.set_budget(budget);
    }

    /// The images that it listed last, the lowest first.
    pub fn listed_images(&self) -> &[PlainImage]
        ensures { result.now ≡ self.now.images }
    {
        self.player.listed_images()
    }

    /// How many bytes the masks of those images have together.
    pub fn listed_bytes(&self) -> usize
        ensures { result ≡ mask_bytes self.now.images }
    {
        self.player.listed_bytes()
    }
}
