//! The law. The function does nothing: its contract is the law.

ghost use Rattle.std.specs.Prelude.{List};
ghost use Rattle.ass_script.specs.Scripts.{ScriptValue};
ghost use Rattle.bdf_font.specs.Fonts.{FontValue};
ghost use Rattle.picture_exists.specs.Existence.{HaveAPicture, HaveDraws, SomeHaveAPicture};

/// Events have draws at each instant and so a picture, in whatever script and fonts, and on whatever frame.
pub fn a_picture_exists()
    ensures draws { (script : ScriptValue) (fonts : List FontValue) → HaveDraws script fonts }
    ensures picture { (script : ScriptValue) (fonts : List FontValue) → HaveAPicture script fonts }
    ensures some { (script : ScriptValue) (fonts : List FontValue) → SomeHaveAPicture script fonts }
{}
