//! The player.

use ass_num::Size;
use ass_script::Script;
use bdf_font::FontSet;
use local_caches::LocalCaches;
use mask_keys::Plan;
use plain_images::PlainImage;
use std::marker::Model;
use std::sync::Arc;
use track_history::LocalTrack;

/// What the images that were listed last are of.
#[derive(Drop)]
pub(crate) struct Listed {
    pub size: Size,
    pub plan: Plan,
}

/// A script, the fonts that its events are shown in, one track, the caches of one thread, and the images that were listed
/// last. docs/EMBEDDING.md says how a program uses one.
#[derive(Drop)]
pub struct Player {
    pub(crate) script: Arc<Script>,
    pub(crate) fonts: Arc<FontSet>,
    pub(crate) track: LocalTrack,
    pub(crate) local: LocalCaches,
    pub(crate) budget: u64,
    // None where fonts were added since.
    pub(crate) listed: Option<Listed>,
    pub(crate) images: Vec<PlainImage>,
    // How many bytes their masks have together.
    pub(crate) bytes: usize,
}

impl Model for Player {
    ghost use Rattle.std.specs.Arc.{arc_value};
    ghost use Rattle.player.specs.Players.{IsPlayer, PlayerView};

    ghost Value = { PlayerView };

    ghost view = { λ p. record {
      script = arc_value p.script;
      fonts = (arc_value p.fonts).fonts;
      budget = p.budget;
      track = p.track;
      images = p.images.items;
    } };

    ghost invariant = { λ p. IsPlayer (arc_value p.script) (arc_value p.fonts).fonts p.local p.budget p.listed p.images.items p.bytes };
}
