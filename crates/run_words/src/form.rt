//! How images are written.

ghost use Rattle.std.specs.Prelude.{◌≡◌};
ghost use Rattle.run_words.specs.Forms.{image_form};

use crate::job::{ImageForm, PlayFormat};
use ass_script::ScriptMatrix;
use y4m_text::form_for;

/// How the images of a play are written, by what its script says of its matrix.
pub fn image_form(format: PlayFormat, said: ScriptMatrix) -> ImageForm
    ensures { result ≡ image_form format said }
{
    match format {
        PlayFormat::Image(format) => ImageForm::Image(format),
        PlayFormat::Video(choice) => ImageForm::Video(form_for(choice, said)),
    }
}
