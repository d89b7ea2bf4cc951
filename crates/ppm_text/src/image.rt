//! Images.

ghost use Rattle.std.specs.Prelude.{◌≡◌, ◌*◌, length, IfOk, string_bytes};
ghost use Rattle.ppm_text.specs.Images.{head_bytes, image_bytes};

use ass_num::{Mem, Size};
use std::alloc::Global;

/// The lines before the pixels.
fn head(alloc: Global, size: &Size, t: i64, n: usize) -> Mem<String>
    ensures { IfOk result (λ head. string_bytes head ≡ head_bytes size.now.w size.now.h t n) }
{
    let w = size.w;
    let h = size.h;
    Ok(format!(in alloc; "P6\n# t={t} n={n}\n{w} {h}\n255\n")?)
}

/// An image as a binary portable pixmap with a comment: the picture at the instant `t` in milliseconds, when `n` events were known.
pub fn ppm_bytes(alloc: Global, size: &Size, pixels: &[u8], t: i64, n: usize) -> Mem<Vec<u8>>
    requires { length pixels.now ≡ 3 * (size.now.w * size.now.h) }
    ensures { IfOk result (λ image. image.items ≡ image_bytes size.now.w size.now.h pixels.now t n) }
{
    ppm_bytes_in(alloc, Vec::new(alloc), size, pixels, t, n)
}

/// The same in the memory of a buffer, whose bytes are dropped.
pub fn ppm_bytes_in(
    alloc: Global,
    buffer: Vec<u8>,
    size: &Size,
    pixels: &[u8],
    t: i64,
    n: usize,
) -> Mem<Vec<u8>>
    requires { length pixels.now ≡ 3 * (size.now.w * size.now.h) }
    ensures { IfOk result (λ image. image.items ≡ image_bytes size.now.w size.now.h pixels.now t n) }
{
    let head = head(alloc, size, t, n)?;
    let mut image = buffer;
    image.clear();
    image.reserve_exact(head.len() + pixels.len())?;
    image.extend_from_slice(head.as_bytes())?;
    image.extend_from_slice(pixels)?;
    Ok(image)
}
