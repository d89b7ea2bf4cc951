//! What holds of the definitions themselves. The functions do nothing: their contracts are the laws.

ghost use Rattle.std.specs.Prelude.{◌≡◌, ◌≤◌, List};
ghost use Rattle.ass_num.specs.declared.size.Size.{Size};
ghost use Rattle.ass_script.specs.Scripts.{ScriptValue};
ghost use Rattle.ass_events.specs.declared.event.Event.{Event};
ghost use Rattle.bdf_font.specs.Fonts.{FontValue};
ghost use Rattle.frame_view.specs.declared.view.FrameView.{FrameView};
ghost use Rattle.override_tags.specs.declared.view.EventView.{EventView};
ghost use Rattle.text_layout.specs.declared.laid.Laid.{Laid};
ghost use Rattle.text_layout.specs.Anchors.{StandsOnSize};
ghost use Rattle.text_layout.specs.Layouts.{IsLaid};

/// What an event shows has one layout at most.
pub fn one_layout()
    ensures { (script : ScriptValue) (fonts : List FontValue) (event : Event) (view : EventView) (frame : FrameView) (laid other : Laid) → view.wrap ≤ 3
        → IsLaid script fonts event view frame laid → IsLaid script fonts event view frame other → laid ≡ other }
{}

/// Where the size of a frame alone is known, places count from its corner, and lines are wrapped between their margins.
pub fn stands_on_size()
    ensures { (script : ScriptValue) (size : Size) → StandsOnSize script size }
{}
