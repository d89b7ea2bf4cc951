//! Laws of pictures. The functions call other laws and do nothing else: their contracts are the laws.

ghost use Rattle.std.specs.Prelude.{List};
ghost use Rattle.ass_script.specs.Ranges.{IsScript};
ghost use Rattle.ass_script.specs.Scripts.{ScriptValue};
ghost use Rattle.bdf_font.specs.Fonts.{FontValue};
ghost use Rattle.picture_laws.specs.BitmapSets.{BitmapsAreDrawnAsNamed};
ghost use Rattle.picture_laws.specs.NearPictures.{AlphaPicturesAreNear};
ghost use Rattle.picture_laws.specs.OnePicture.{HaveOneListOfDraws, HaveOnePicture};

use alpha_canvas::over_is_near;
use bdf_font::bitmaps_stay_found;

/// The events of a script draw one list of draws at an instant, and make one picture.
pub fn one_picture()
    ensures draws { (script : ScriptValue) (fonts : List FontValue) → IsScript script → HaveOneListOfDraws script fonts }
    ensures picture { (script : ScriptValue) (fonts : List FontValue) → IsScript script → HaveOnePicture script fonts }
{}

/// The picture with alpha of a script's events at an instant, in either form, is near to their picture where it is laid over black: each
/// channel differs by at most one, and one more for each two draws that show at the pixel without hiding all below them.
pub fn alpha_pictures_are_near()
    ensures { (script : ScriptValue) (fonts : List FontValue) → IsScript script → AlphaPicturesAreNear script fonts }
{
    over_is_near();
}

/// In a set of bitmaps alone a state has the first font of its name, whether bold or not and italic or not. Its letters slant where
/// it is italic, and are drawn a step wider where it is bold; and a character has the glyph of that font alone.
pub fn bitmaps_are_drawn_as_named()
    ensures { BitmapsAreDrawnAsNamed }
{
    bitmaps_stay_found();
}
