//! Glyphs, and the boxes that they fill.

ghost use Rattle.std.specs.Prelude.{◌≡◌, ◌<◌, IfOk};
ghost use Rattle.std.specs.Option.{option_map};
ghost use Rattle.ass_num.specs.Bitmaps.{pixel_is_set};
ghost use Rattle.bdf_font.specs.Pixels.{row_has_pixels, has_pixels, bitmap_glyph, pixels_in, contours_in, strokes_in};
ghost use Rattle.bdf_font.specs.Ranges.{IsBitmap};

use ass_num::{FlatLists, Items, Mem};
use outline_points::{GlyphPoint, Stroke, pixel_is_set};
use std::alloc::Global;

/// A glyph: its code, how far the pen moves, whether nothing of it is seen, whether it is drawn for missing characters,
/// and its shape.
#[derive(Clone, Debug, Drop)]
pub struct FontGlyph {
    pub code: i64,
    pub advance: i32,
    pub blank: bool,
    pub missing: bool,
    pub shape: GlyphShape,
}

/// What a glyph is drawn from.
#[derive(Clone, Debug, Drop)]
pub enum GlyphShape {
    /// A bitmap.
    Pixels(Pixels),
    /// Contours in the font's units.
    Contours(FlatLists<GlyphPoint>),
    /// Contours of lines and cubic curves in 1/65,536 of the font's unit.
    Strokes(FlatLists<Stroke>),
}

/// A bitmap of `w` by `h` pixels, whose lower left corner lies at (`x`, `y`) from the pen, y upwards. `bits` holds `h`
/// rows from the top, each of `(w + 7) / 8` bytes, the highest bit of a byte leftmost.
#[derive(Clone, Debug, Drop)]
pub struct Pixels {
    pub w: u32,
    pub h: u32,
    pub x: i32,
    pub y: i32,
    pub bits: Items<u8>,
}

/// A box of pixels: its sides, and its lower left corner.
#[derive(Clone, Copy, Debug, PartialEq, Eq)]
pub struct BoundingBox {
    pub w: u16,
    pub h: u16,
    pub x: i16,
    pub y: i16,
}

impl Pixels {
    /// Whether the pixel in column i and row j is set.
    pub fn is_set(&self, i: u32, j: u32) -> bool
        requires bitmap { IsBitmap self.now }
        requires column { i < self.now.w }
        requires row { j < self.now.h }
        ensures { result ≡ pixel_is_set self.now.w self.now.bits i j }
    {
        pixel_is_set(self.bits.as_slice(), self.w, i, j)
    }

    /// Whether a pixel of row j is set.
    fn row_has_pixels(&self, j: u32) -> bool
        requires bitmap { IsBitmap self.now }
        requires row { j < self.now.h }
        ensures { result ≡ row_has_pixels self.now j }
    {
        for i in 0..self.w {
            if self.is_set(i, j) {
                return true;
            }
        }
        false
    }

    /// Whether a pixel is set.
    fn has_pixels(&self) -> bool
        requires { IsBitmap self.now }
        ensures { result ≡ has_pixels self.now }
    {
        for j in 0..self.h {
            if self.row_has_pixels(j) {
                return true;
            }
        }
        false
    }
}

impl GlyphShape {
    /// The bitmap, where the shape is one.
    pub fn pixels(&self) -> Option<&Pixels>
        ensures { option_map (λ pixels. pixels.now) result ≡ pixels_in self.now }
    {
        match self {
            GlyphShape::Pixels(pixels) => Some(pixels),
            GlyphShape::Contours(_) => None,
            GlyphShape::Strokes(_) => None,
        }
    }

    /// A copy of the contours; a bitmap has none.
    pub fn contours(&self, alloc: Global) -> Mem<FlatLists<GlyphPoint>>
        ensures { IfOk result (λ contours. contours ≡ contours_in self.now) }
    {
        match self {
            GlyphShape::Pixels(_) => Ok(FlatLists::new(alloc)),
            GlyphShape::Contours(contours) => contours_copy(alloc, contours),
            GlyphShape::Strokes(_) => Ok(FlatLists::new(alloc)),
        }
    }

    /// A copy of the contours of strokes; any other shape has none.
    pub fn strokes(&self, alloc: Global) -> Mem<FlatLists<Stroke>>
        ensures { IfOk result (λ contours. contours ≡ strokes_in self.now) }
    {
        match self {
            GlyphShape::Pixels(_) => Ok(FlatLists::new(alloc)),
            GlyphShape::Contours(_) => Ok(FlatLists::new(alloc)),
            GlyphShape::Strokes(contours) => strokes_copy(alloc, contours),
        }
    }
}

fn contours_copy(alloc: Global, contours: &FlatLists<GlyphPoint>) -> Mem<FlatLists<GlyphPoint>>
    ensures { IfOk result (λ copy. copy ≡ contours.now) }
{
    let mut copy = FlatLists::with_capacity(alloc, contours.len(), contours.all_items().len())?;
    for k in 0..contours.len() {
        copy.push(contours.get(k))?;
    }
    Ok(copy)
}

fn strokes_copy(alloc: Global, contours: &FlatLists<Stroke>) -> Mem<FlatLists<Stroke>>
    ensures { IfOk result (λ copy. copy ≡ contours.now) }
{
    let mut copy = FlatLists::with_capacity(alloc, contours.len(), contours.all_items().len())?;
    for k in 0..contours.len() {
        copy.push(contours.get(k))?;
    }
    Ok(copy)
}

impl FontGlyph {
    /// The glyph of a bitmap. It is blank where no pixel is set.
    pub fn of_pixels(code: i64, advance: i32, pixels: Pixels) -> FontGlyph
        requires { IsBitmap pixels }
        ensures { result ≡ bitmap_glyph code advance pixels }
    {
        let blank = !pixels.has_pixels();
        FontGlyph {
            code,
            advance,
            blank,
            missing: false,
            shape: GlyphShape::Pixels(pixels),
        }
    }
}
