//! Laws of pictures.

ghost use Rattle.blend.specs.Bands.{BandsMakeThePicture};

/// Drawing all images on each of the bands that a picture is cut into, by themselves, makes the picture.
pub fn bands_make_the_picture()
    ensures { BandsMakeThePicture }
{}
