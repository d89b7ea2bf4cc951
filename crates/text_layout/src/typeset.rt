//! The scales of a line in a frame.

ghost use Rattle.std.specs.Prelude.{◌≡◌};
ghost use Rattle.ass_script.specs.Ranges.{IsScriptHeader};
ghost use Rattle.frame_view.specs.FrameScales.{IsScales};
ghost use Rattle.frame_view.specs.FrameViews.{IsFrameView};
ghost use Rattle.text_layout.specs.LineScales.{is_typeset, line_scales};

use ass_script::Header;
use frame_view::{FrameView, Scales, scales_of};
use override_tags::EventView;

/// Whether an event says a place of its own for its lines: by `\pos`, `\move`, `\org` or a clip.
pub fn is_typeset(view: &EventView) -> bool
    ensures { result ≡ is_typeset view.now }
{
    view.pos.is_some() || view.org.is_some() || view.clip.is_some()
}

/// The scales of the lines of an event that looks so.
pub fn line_scales(header: &Header, frame: &FrameView, view: &EventView) -> Scales
    requires header { IsScriptHeader header.now }
    requires frame { IsFrameView frame.now }
    ensures value { result ≡ line_scales header.now frame.now view.now }
    ensures range { IsScales result }
{
    scales_of(header, frame, is_typeset(view))
}
