//! The renderer.

use ass_script::Script;
use bdf_font::FontSet;
use mask_caches::Caches;
use std::marker::Model;
use std::sync::Arc;
use track_history::Track;

/// A script with its fonts, the accepted events of its track, and the caches of its masks. Threads share it by `&`.
///
/// A pass or a frame must come from the renderer that it is used on. What says `rt` may wait for a turn, or for a value that another
/// thread makes; nothing else waits.
pub struct Renderer {
    pub(crate) script: Arc<Script>,
    pub(crate) fonts: Arc<FontSet>,
    pub(crate) track: Track,
    pub(crate) caches: Caches,
}

impl Model for Renderer {
    ghost use Rattle.std.specs.Arc.{arc_value};
    ghost use Rattle.std.specs.Coded.{codes};
    ghost use Rattle.renderer.specs.FontCodes.{fonts_code};
    ghost use Rattle.renderer.specs.Passes.{IsWholeRenderer, RendererView};

    ghost Value = { RendererView };

    ghost coded = { Prim.hlevel (codes, fonts_code) };

    ghost view = { λ r. record { script = arc_value r.script; fonts = (arc_value r.fonts).fonts; track = r.track; caches = r.caches } };

    ghost invariant = { λ r. IsWholeRenderer (record { script = arc_value r.script; fonts = (arc_value r.fonts).fonts; track = r.track; caches = r.caches }) };
}
