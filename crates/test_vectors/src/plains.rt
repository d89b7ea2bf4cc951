//! Plain images of an image, painted plainly beside it.

use crate::telling::{numbers, parted, shown};
use ass_num::{Mask, Mem, Rgba, Size};
use blend::{Canvas, Image, Stencil};
use plain_images::{PlainImage, plain_images_of};
use std::alloc::Global;

const SIZE: Size = Size { w: 5, h: 4 };

const WHITE: Rgba = Rgba {
    r: 255,
    g: 255,
    b: 255,
    a: 0,
};

const RED: Rgba = Rgba {
    r: 255,
    g: 0,
    b: 0,
    a: 64,
};

/// A mask of 4 by 3 pixels, whose bytes all differ.
fn mask(alloc: Global) -> Mem<Mask> {
    let bytes = vec![in alloc; 10, 20, 30, 40, 50, 60, 70, 80, 90, 100, 110, 255]?;
    Ok(Mask::new(0, 0, 4, 3, bytes))
}

/// Whether plain images make the picture of a canvas.
fn are_whole(alloc: Global, plains: &[PlainImage], whole: &Canvas) -> Mem<bool> {
    let mut canvas = Canvas::new(alloc, &SIZE)?;
    for plain in plains {
        canvas.draw(&Image {
            mask: &plain.mask,
            x: 0,
            y: 0,
            left: plain.colour,
            right: plain.colour,
            edge: 0,
            stencil: Stencil::Free,
        });
    }
    Ok(canvas.pixels() == whole.pixels())
}

/// How many plain images an image has, and whether they make its picture.
fn count_told(alloc: Global, image: &Image<&Mask>) -> Mem<String> {
    let plains = plain_images_of(alloc, &SIZE, image)?;
    let mut whole = Canvas::new(alloc, &SIZE)?;
    whole.draw(image);
    let same = are_whole(alloc, plains.as_slice(), &whole)?;
    shown(alloc, &(plains.len(), same))
}

fn place(number: i64) -> i32 {
    i32::try_from(number).unwrap_or(0)
}

/// The plain images of an image, white up to its edge and red from there: its place and its edge, a bar, and how it is clipped: not, by
/// the bounds of a rectangle, or by itself at a place, each with 1 where what lies inside is hidden.
pub fn told(alloc: Global, question: &str) -> Mem<String> {
    let (image, clip) = parted(question, " |");
    let [x, y, edge, _, _, _, _, _] = numbers(image);
    let (kind, bounds) = parted(clip, " ");
    let [a, b, c, d, e, _, _, _] = numbers(bounds);
    let mask = mask(alloc)?;
    let stencil = match kind {
        "rect" => Stencil::Rect {
            x1: place(a),
            y1: place(b),
            x2: place(c),
            y2: place(d),
            inverse: e == 1,
        },
        "drawn" => Stencil::Drawn {
            mask: &mask,
            x: place(a),
            y: place(b),
            inverse: c == 1,
        },
        _ => Stencil::Free,
    };
    let image = Image {
        mask: &mask,
        x: place(x),
        y: place(y),
        left: WHITE,
        right: RED,
        edge: place(edge),
        stencil,
    };
    count_told(alloc, &image)
}
