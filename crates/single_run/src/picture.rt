//! The image of a picture.

ghost use Rattle.std.specs.Prelude.{◌≢◌, IfOk};
ghost use Rattle.ass_events.specs.LineLaws.{HasShortLines};
ghost use Rattle.ass_script.specs.Ranges.{IsScript};
ghost use Rattle.frame_images.specs.FrameImages.{IsFormattedImage};
ghost use Rattle.text_layout.specs.Fonts.{IsLayoutFontSet};
ghost use Rattle.single_run.specs.Outcomes.{ArePiecesShown, IsOrFault, IsShown, IsWriteCounted};
ghost use Rattle.run_words.specs.Jobs.{IsFrameJob};
ghost use Rattle.run_status.specs.declared.status.Status.TheVariants.{Done as done_status};

use crate::shown::show;
use ass_io::Sink;
use ass_num::{Mem, OutOfMemory};
use bdf_font::FontSet;
use frame_images::frame_image;
use run_status::{Inputs, Status, Which};
use run_words::FrameJob;
use std::alloc::Global;
use std::sync::Arc;

/// The image of the picture that the events of a script that was read show in the fonts that were.
fn image_of(alloc: Global, frame: &FrameJob, inputs: Inputs) -> Mem<Vec<u8>>
    requires frame { IsFrameJob frame.now }
    requires script { IsScript inputs.script }
    requires short { HasShortLines inputs.script }
    requires fonts { IsLayoutFontSet inputs.fonts }
    ensures { IfOk result (λ image. IsFormattedImage frame.now.format inputs.script inputs.fonts frame.now.at frame.now.view image.items) }
{
    let Inputs { script, fonts } = inputs;
    let fonts = Arc::new(alloc, FontSet { fonts })?;
    frame_image(alloc, frame, &script, fonts)
}

/// Draws a picture of a script in fonts, and puts its image to the frames sink.
pub fn draw<F: Sink>(alloc: Global, frame: &FrameJob, inputs: Inputs, frames: &mut F) -> Status
    requires frame { IsFrameJob frame.now }
    requires script { IsScript inputs.script }
    requires short { HasShortLines inputs.script }
    requires fonts { IsLayoutFontSet inputs.fonts }
    ensures answered { IsOrFault Which.Frames done_status result }
    ensures shown { IsShown result (F.state frames.old).held (F.state frames.new).held
        (IsFormattedImage frame.now.format inputs.script inputs.fonts frame.now.at frame.now.view) }
    ensures pieces { ArePiecesShown Which.Frames result (IsFormattedImage frame.now.format inputs.script inputs.fonts frame.now.at frame.now.view)
        (F.state frames.old).asked (F.state frames.new).asked }
    ensures counted { IsWriteCounted result (F.state frames.old).faults (F.state frames.new).faults }
    ensures own { result ≢ Status.WriteFault Which.Report }
{
    match image_of(alloc, frame, inputs) {
        Ok(image) => show(image.as_slice(), frames),
        Err(OutOfMemory) => Status::OutOfMemory,
    }
}
