//! The passes of a renderer.

use mask_caches::CachesPass;
use std::marker::Model;
use track_history::TrackPass;

/// The right to call a renderer, what its owner has seen of the track and of the caches, and the pins that it holds for frames. It must
/// be spent: each call that takes one gives one back, but for [`crate::Renderer::close`] and the second pass of a join.
pub struct RenderPass {
    pub(crate) track: TrackPass,
    pub(crate) caches: CachesPass,
}

impl Model for RenderPass {
    ghost use Rattle.renderer.specs.Passes.{GoTogether, RenderView};

    ghost Value = { RenderView };

    ghost view = { λ p. record { track = p.track; caches = p.caches } };

    ghost invariant = { λ p. GoTogether (record { track = p.track; caches = p.caches }) };
}
