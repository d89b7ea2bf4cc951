//! Laws of the draws of a picture. The functions do nothing: their contracts are the laws.

ghost use Rattle.std.specs.Prelude.{List};
ghost use Rattle.ass_script.specs.Scripts.{ScriptValue};
ghost use Rattle.bdf_font.specs.Fonts.{FontValue};
ghost use Rattle.picture_plan.specs.Pictures.{DrawsOfASet, DrawsOfNearEvents, PicturesOfASet, PicturesOfNearEvents};

/// What a set of events draws doesn't depend on the order in which they came, and so the picture doesn't.
pub fn order_of_arrival()
    ensures draws { (script : ScriptValue) (fonts : List FontValue) → DrawsOfASet script fonts }
    ensures picture { (script : ScriptValue) (fonts : List FontValue) → PicturesOfASet script fonts }
{}

/// The events that matter at an instant draw what all events do, and make the same picture.
pub fn near_events_draw()
    ensures draws { (script : ScriptValue) (fonts : List FontValue) → DrawsOfNearEvents script fonts }
    ensures picture { (script : ScriptValue) (fonts : List FontValue) → PicturesOfNearEvents script fonts }
{}
