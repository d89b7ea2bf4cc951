//! Canvases.

ghost use Rattle.std.specs.Prelude.{◌≡◌, ◌*◌, length, replicate, IfOk};
ghost use Rattle.ass_num.specs.Limits.{IsFrameSize};
ghost use Rattle.blend.specs.Canvases.{black, drawn};
ghost use Rattle.blend.specs.Images.{image_value};

use crate::as_mask::AsMask;
use crate::drawing::draw_rows;
use crate::image::Image;
use ass_num::{Mem, Size};
use std::alloc::Global;
use std::marker::Model;

/// A picture that images are drawn on: three bytes for each pixel, red, green and blue, row by row from the top left.
#[derive(Debug, Drop)]
pub struct Canvas {
    w: u32,
    h: u32,
    bytes: Vec<u8>,
}

impl Model for Canvas {
    ghost use Rattle.std.specs.Prelude.{◌≡◌, ◌*◌, length};
    ghost use Rattle.blend.specs.Canvases.{CanvasValue};

    ghost Value = { CanvasValue };

    ghost view = { λ c. record { w = c.w; h = c.h; bytes = c.bytes.items } };

    ghost invariant = { λ c. length c.bytes.items ≡ 3 * (c.w * c.h) };
}

impl Canvas {
    ghost use Rattle.std.specs.Borrow.{sem};
    ghost use Rattle.blend.specs.Lending.{LendsPixels};

    /// A black canvas.
    pub fn new(alloc: Global, size: &Size) -> Mem<Canvas>
        requires { IsFrameSize size.now }
        ensures { IfOk result (λ c. c ≡ black size.now.w size.now.h) }
    {
        let count = 3 * (size.w as usize * size.h as usize);
        Ok(Canvas {
            w: size.w,
            h: size.h,
            bytes: vec![in alloc; 0; count]?,
        })
    }

    /// The bytes of the pixels, three for each, row by row.
    pub fn pixels(&self) -> &[u8]
        ensures bytes { result.now ≡ self.now.bytes }
        ensures count { length result.now ≡ 3 * (self.now.w * self.now.h) }
    {
        self.bytes.as_slice()
    }

    /// The same bytes, to be written.
    pub fn pixels_mut(&mut self) -> &mut [u8]
        ensures* writes_back { sem 𝓛 (LendsPixels self.entry result) }
        ensures value { result.now ≡ self.old.bytes }
        ensures count { length result.now ≡ 3 * (self.old.w * self.old.h) }
    {
        self.bytes.as_mut_slice()
    }

    /// Draws an image: one step of the fold that makes a picture. It takes no memory.
    pub fn draw<M: AsMask>(&mut self, image: &Image<M>)
        ensures { self.new ≡ drawn self.old (image_value M.mask image.now) }
    {
        let w = self.w;
        let h = self.h;
        draw_rows(self.bytes.as_mut_slice(), w, 0, h, image);
    }
}
