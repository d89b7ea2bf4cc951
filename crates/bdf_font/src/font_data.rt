//! What a font keeps.

use crate::bitmap_font::BitmapFont;
use sfnt_font::SfntFont;

/// The glyphs of a font of bitmaps, or the bytes of a TrueType font.
#[derive(Debug, Drop)]
pub enum FontData {
    Bitmaps(BitmapFont),
    Outlines(SfntFont),
}
