//! Laws of plain images. The functions do nothing: their contracts are the laws.

ghost use Rattle.plain_images.specs.PlainImages.{PlainImagesLieInTheFrame, PlainImagesMakeThePicture};

/// Plain images, painted in order with nothing hidden, make the picture of the images that they are of; and each of them lies in the
/// frame.
pub fn plain_images_make_the_picture()
    ensures picture { PlainImagesMakeThePicture }
    ensures frame { PlainImagesLieInTheFrame }
{}
