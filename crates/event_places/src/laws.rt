//! Laws of where events stand. The functions do nothing: their contracts are the laws.

ghost use Rattle.std.specs.Prelude.{List};
ghost use Rattle.frame_view.specs.declared.view.FrameView.{FrameView};
ghost use Rattle.ass_script.specs.Ranges.{IsScript};
ghost use Rattle.ass_script.specs.Scripts.{ScriptValue};
ghost use Rattle.bdf_font.specs.Fonts.{FontValue};
ghost use Rattle.event_places.specs.Shifts.{HaveOneMove, HaveOneShift, HaveOneStand};

/// Where each event has one stand, and none beside a point, each has one shift, and is moved by one distance.
pub fn one_shift()
    ensures shift { (script : ScriptValue) (fonts : List FontValue) (frame : FrameView) → HaveOneStand script fonts frame → HaveOneShift script fonts frame }
    ensures moved { (script : ScriptValue) (fonts : List FontValue) (frame : FrameView) → HaveOneStand script fonts frame → HaveOneMove script fonts frame }
{}

/// An event of a script has one stand at most, and none beside a point of its own.
pub fn one_stand()
    ensures { (script : ScriptValue) (fonts : List FontValue) (frame : FrameView) → IsScript script → HaveOneStand script fonts frame }
{}
