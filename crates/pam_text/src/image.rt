//! Portable arbitrary maps.

ghost use Rattle.std.specs.Prelude.{◌≡◌, ◌*◌, length, IfOk, string_bytes};
ghost use Rattle.pam_text.specs.Pams.{pam_bytes, pam_sizes};

use ass_num::{Mem, Size};
use std::alloc::Global;

/// What each pixel has, and the end of the head.
const FORM: &[u8] = b"DEPTH 4\nMAXVAL 255\nTUPLTYPE RGB_ALPHA\nENDHDR\n";

/// The form, the instant, the number of events and the size.
fn sizes(alloc: Global, size: &Size, t: i64, n: usize) -> Mem<String>
    ensures { IfOk result (λ sizes. string_bytes sizes ≡ pam_sizes size.now.w size.now.h t n) }
{
    let w = size.w;
    let h = size.h;
    Ok(format!(in alloc; "P7\n# t={t} n={n}\nWIDTH {w}\nHEIGHT {h}\n")?)
}

/// A picture with straight alpha as a portable arbitrary map with a comment: that at the instant `t` in milliseconds, when `n` events
/// were known.
pub fn pam_bytes(alloc: Global, size: &Size, pixels: &[u8], t: i64, n: usize) -> Mem<Vec<u8>>
    requires { length pixels.now ≡ 4 * (size.now.w * size.now.h) }
    ensures { IfOk result (λ image. image.items ≡ pam_bytes size.now.w size.now.h pixels.now t n) }
{
    pam_bytes_in(alloc, Vec::new(alloc), size, pixels, t, n)
}

/// The same in the memory of a buffer, whose bytes are dropped.
pub fn pam_bytes_in(
    alloc: Global,
    buffer: Vec<u8>,
    size: &Size,
    pixels: &[u8],
    t: i64,
    n: usize,
) -> Mem<Vec<u8>>
    requires { length pixels.now ≡ 4 * (size.now.w * size.now.h) }
    ensures { IfOk result (λ image. image.items ≡ pam_bytes size.now.w size.now.h pixels.now t n) }
{
    let sizes = sizes(alloc, size, t, n)?;
    let mut image = buffer;
    image.clear();
    image.extend_from_slice(sizes.as_bytes())?;
    image.extend_from_slice(FORM)?;
    image.reserve_exact(pixels.len())?;
    image.extend_from_slice(pixels)?;
    Ok(image)
}
