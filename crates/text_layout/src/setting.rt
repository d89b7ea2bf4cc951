//! What the events of a picture are laid out and drawn in.

ghost use Rattle.text_layout.specs.Settings.{SettingValue};

use ass_script::Script;
use bdf_font::FontSet;
use frame_view::FrameView;
use std::marker::Model;

/// What the events of a picture are laid out and drawn in: their script, the fonts, and what the frame is to the
/// script.
#[derive(Drop)]
pub struct Setting<'a> {
    pub script: &'a Script,
    pub fonts: &'a FontSet,
    pub frame: FrameView,
}

impl<'a> Model for Setting<'a> {
    ghost Value = { SettingValue };

    ghost view = { λ s. record { script = s.script.now; fonts = s.fonts.now.fonts; frame = s.frame } };
}
