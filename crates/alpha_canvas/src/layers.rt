//! A pixel while images are painted on it.

ghost use Rattle.std.specs.Prelude.{◌≡◌, ◌≤◌, ◌*◌, ◌+◌};
ghost use Rattle.blend.specs.Blending.{blended};
ghost use Rattle.alpha_canvas.specs.Alpha.{clear, fine, straight_channel, straight, premultiplied, formed_pixel, to_nearest, under};
ghost use Rattle.alpha_canvas.specs.Bounds.{IsWithinAlpha};

use crate::pixel::{AlphaForm, Pixel};
use ass_num::Rgba;

/// The steps of a 255th.
const FINE: u32 = 16_777_216;

/// The alpha of a pixel that hides what lies below.
const OPAQUE: u32 = 255 * FINE;

/// The layers of a pixel, laid together: the colour times the alpha, and the alpha. A channel has 16,777,216 steps to a 255th.
#[derive(Clone, Copy, Debug)]
pub struct Layers {
    pub r: u32,
    pub g: u32,
    pub b: u32,
    pub a: u32,
}

/// A channel under a channel of a colour, in fine steps.
fn blended(under: u32, over: u8, weight: u8) -> u32
    requires { under ≤ fine * 255 }
    ensures { result ≡ blended under (fine * over) weight }
{
    let left = u64::from(under) * (255 - u64::from(weight));
    let added = u64::from(FINE) * u64::from(over) * u64::from(weight);
    ((left + added + 127) / 255) as u32
}

/// A channel by itself, in 255ths: the part of the alpha that it has.
fn straight_channel(channel: u32, alpha: u32) -> u8
    requires { channel ≤ alpha }
    ensures { result ≡ straight_channel channel alpha }
{
    if alpha == 0 {
        return 0;
    }
    ((255 * u64::from(channel) + u64::from(alpha / 2)) / u64::from(alpha)) as u8
}

/// A channel in 255ths.
fn coarse(channel: u32) -> u8
    requires { channel ≤ fine * 255 }
    ensures { result ≡ to_nearest channel fine }
{
    ((channel + FINE / 2) / FINE) as u8
}

/// The layers of a colour that hides what lies below.
fn hiding(colour: Rgba) -> Layers
    ensures value { (p : Layers) → result ≡ under p (record { colour = colour; weight = 255 }) }
    ensures within { IsWithinAlpha result }
{
    Layers {
        r: FINE * u32::from(colour.r),
        g: FINE * u32::from(colour.g),
        b: FINE * u32::from(colour.b),
        a: OPAQUE,
    }
}

impl Layers {
    /// Those of a pixel on which nothing was painted.
    pub fn clear() -> Layers
        ensures { result ≡ clear }
    {
        Layers {
            r: 0,
            g: 0,
            b: 0,
            a: 0,
        }
    }

    /// A colour of this weight is painted on it.
    pub fn under(self, colour: Rgba, weight: u8) -> Layers
        requires { IsWithinAlpha self }
        ensures value { result ≡ under self (record { colour = colour; weight = weight }) }
        ensures within { IsWithinAlpha result }
    {
        match weight {
            0 => self,
            255 => hiding(colour),
            _ => self.blended_with(colour, weight),
        }
    }

    /// The same, whatever the weight is.
    fn blended_with(self, colour: Rgba, weight: u8) -> Layers
        requires { IsWithinAlpha self }
        ensures value { result ≡ under self (record { colour = colour; weight = weight }) }
        ensures within { IsWithinAlpha result }
    {
        Layers {
            r: blended(self.r, colour.r, weight),
            g: blended(self.g, colour.g, weight),
            b: blended(self.b, colour.b, weight),
            a: blended(self.a, 255, weight),
        }
    }

    /// The pixel with straight alpha.
    fn straight(self) -> Pixel
        requires { IsWithinAlpha self }
        ensures { result ≡ straight self }
    {
        if self.a == OPAQUE {
            return self.premultiplied();
        }
        Pixel {
            r: straight_channel(self.r, self.a),
            g: straight_channel(self.g, self.a),
            b: straight_channel(self.b, self.a),
            a: coarse(self.a),
        }
    }

    /// The pixel with premultiplied alpha.
    fn premultiplied(self) -> Pixel
        requires { IsWithinAlpha self }
        ensures { result ≡ premultiplied self }
    {
        Pixel {
            r: coarse(self.r),
            g: coarse(self.g),
            b: coarse(self.b),
            a: coarse(self.a),
        }
    }

    /// The pixel in one of the forms.
    pub fn pixel(self, form: AlphaForm) -> Pixel
        requires { IsWithinAlpha self }
        ensures { result ≡ formed_pixel form self }
    {
        match form {
            AlphaForm::Straight => self.straight(),
            AlphaForm::Premultiplied => self.premultiplied(),
        }
    }
}
