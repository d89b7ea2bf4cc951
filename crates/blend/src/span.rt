//! Blending a colour into neighbouring pixels of a row, sixteen at a time. Those that aren't covered at all are passed over, and
//! those that an opaque colour covers wholly get it. Otherwise a pixel that isn't covered is blended too, with a weight of 0:
//! without a test the compiler works on several pixels at once.

ghost use Rattle.std.specs.Prelude.{◌≡◌, ℕ, ◌≤◌, ◌<◌, ◌+◌, ◌*◌, ◌-◌, ◌/◌, true, length, slice_index, if◌then◌else◌};
ghost use Rattle.blend.specs.Blending.{by_255, blended, tint_of, tinted};
ghost use Rattle.blend.specs.Blocks.{IsSolid};

use ass_num::Rgba;

/// A product of two numbers in 255ths, rounded: (v + 127) / 255.
fn by_255(v: u16) -> u8
    requires { v ≤ 65025 }
    ensures { result ≡ by_255 v }
{
    let t = v + 128;
    ((t + (t >> 8)) >> 8) as u8
}

/// A channel of a pixel under a channel of a colour.
fn blended(under: u8, over: u8, weight: u8) -> u8
    ensures { result ≡ blended under over weight }
{
    let weight = u16::from(weight);
    by_255(u16::from(under) * (255 - weight) + u16::from(over) * weight)
}

/// Blends a colour into one pixel.
fn tint_pixel(pixel: &mut [u8], colour: Rgba, weight: u8)
    requires { length pixel.old ≡ 3 }
    ensures { pixel.new ≡ tinted (λ _. record { colour = colour; weight = weight }) 0 pixel.old }
{
    pixel[0] = blended(pixel[0], colour.r, weight);
    pixel[1] = blended(pixel[1], colour.g, weight);
    pixel[2] = blended(pixel[2], colour.b, weight);
}

/// The weight of a colour at a coverage.
fn weight(cover: u8, colour: Rgba) -> u8
    ensures { result ≡ by_255 (cover * (255 - colour.a)) }
{
    by_255(u16::from(cover) * (255 - u16::from(colour.a)))
}

/// Blends a colour into pixels that are covered so far, one after another.
fn tint_each(pixels: &mut [u8], cover: &[u8], colour: Rgba)
    requires { length pixels.old ≡ 3 * length cover.now }
    ensures { pixels.new ≡ tinted (λ k. tint_of colour (slice_index cover.now k)) 0 pixels.old }
{
    for (i, m) in cover.iter().enumerate() {
        tint_pixel(&mut pixels[3 * i..3 * i + 3], colour, weight(*m, colour));
    }
}

/// Whether all pixels are covered so far.
fn is_all(cover: &[u8], value: u8) -> bool
    ensures { result ≡ true → (k : ℕ) → k < length cover.now → slice_index cover.now k ≡ value }
{
    let mut all = true;
    for m in cover {
        all &= *m == value;
    }
    all
}

/// Sixteen pixels of a colour.
pub fn solid(colour: Rgba) -> [u8; 48]
    ensures { IsSolid colour result }
{
    let mut pixels = [0; 48];
    for i in 0..16 {
        pixels[3 * i] = colour.r;
        pixels[3 * i + 1] = colour.g;
        pixels[3 * i + 2] = colour.b;
    }
    pixels
}

/// Blends a colour into sixteen pixels that are covered so far; `solid` are sixteen pixels of it.
fn tint_block(pixels: &mut [u8], cover: &[u8], colour: Rgba, solid: &[u8; 48])
    requires pixels { length pixels.old ≡ 48 }
    requires cover { length cover.now ≡ 16 }
    requires solid { IsSolid colour solid.now }
    ensures { pixels.new ≡ tinted (λ k. tint_of colour (slice_index cover.now k)) 0 pixels.old }
{
    if is_all(cover, 0) {
        return;
    }
    if colour.a == 0 && is_all(cover, 255) {
        pixels.copy_from_slice(solid);
    } else {
        tint_each(pixels, cover, colour);
    }
}

/// Blends a colour into pixels that are covered so far; `solid` are sixteen pixels of it.
pub fn tint_span(pixels: &mut [u8], cover: &[u8], colour: Rgba, solid: &[u8; 48])
    requires pixels { length pixels.old ≡ 3 * length cover.now }
    requires solid { IsSolid colour solid.now }
    ensures { pixels.new ≡ tinted (λ k. tint_of colour (slice_index cover.now k)) 0 pixels.old }
{
    let blocks = cover.len() / 16;
    for i in 0..blocks {
        tint_block(
            &mut pixels[48 * i..48 * i + 48],
            &cover[16 * i..16 * i + 16],
            colour,
            solid,
        );
    }
    tint_each(&mut pixels[48 * blocks..], &cover[16 * blocks..], colour);
}

/// Blends a colour into pixels that are covered so far, under so much of a drawn stencil, or at `inverse` under what it leaves.
pub fn tint_span_under(pixels: &mut [u8], cover: &[u8], over: &[u8], inverse: bool, colour: Rgba)
    requires pixels { length pixels.old ≡ 3 * length cover.now }
    requires over { length over.now ≡ length cover.now }
    ensures { pixels.new ≡ tinted (λ k. tint_of colour (by_255 (slice_index cover.now k
        * (if inverse then 255 - slice_index over.now k else slice_index over.now k)))) 0 pixels.old }
{
    let hidden = if inverse { 255 } else { 0 };
    for (i, m) in cover.iter().enumerate() {
        let shown = over[i].abs_diff(hidden);
        let left = by_255(u16::from(*m) * u16::from(shown));
        tint_pixel(&mut pixels[3 * i..3 * i + 3], colour, weight(left, colour));
    }
}
