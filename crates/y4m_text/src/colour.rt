//! Luma and chroma.

ghost use Rattle.std.specs.Prelude.{◌≡◌, ◌+◌, ◌*◌, ◌/◌, ◌<◌, ◌≤◌};
ghost use Rattle.y4m_text.specs.Bounds.{AreWeights, IsChromaScale, IsSpread, IsSumOf, max_chroma_divisor};
ghost use Rattle.y4m_text.specs.Colours.{channel_of, chroma, chroma_above, chroma_divisor, luma, luma_parts, chroma_weight, weights_of};

use crate::divisor::Divisor;
use ass_script::{ColourMatrix, ColourRange};

/// What red, green and blue have of the luma, in ten thousandths.
#[derive(Clone, Copy)]
pub struct Weights {
    pub red: u32,
    pub green: u32,
    pub blue: u32,
}

/// A colour, or the sum of four.
#[derive(Clone, Copy)]
pub struct Colour {
    pub r: u32,
    pub g: u32,
    pub b: u32,
}

/// Which chroma.
#[derive(Clone, Copy)]
pub enum ChromaChannel {
    Blue,
    Red,
}

/// What the chroma samples of a plane have in common.
#[derive(Clone, Copy)]
pub struct ChromaScale {
    pub which: ChromaChannel,
    pub weights: Weights,
    pub range: ColourRange,
    /// Of how many pixels each is.
    pub pixels: u32,
    pub divisor: Divisor,
}

/// The weights of a standard.
pub fn weights_of(matrix: ColourMatrix) -> Weights
    ensures value { result ≡ weights_of matrix }
    ensures sum { AreWeights result }
{
    match matrix {
        ColourMatrix::Bt601 => Weights {
            red: 2_990,
            green: 5_870,
            blue: 1_140,
        },
        ColourMatrix::Bt709 => Weights {
            red: 2_126,
            green: 7_152,
            blue: 722,
        },
        ColourMatrix::Smpte240m => Weights {
            red: 2_120,
            green: 7_010,
            blue: 870,
        },
        ColourMatrix::Fcc => Weights {
            red: 3_000,
            green: 5_900,
            blue: 1_100,
        },
    }
}

/// The luma, 10000 times.
fn luma_parts(w: Weights, c: Colour) -> u32
    requires weights { AreWeights w }
    requires sum { IsSumOf 4 c }
    ensures { result ≡ luma_parts w c }
{
    w.red * c.r + w.green * c.g + w.blue * c.b
}

/// The luma of a colour.
pub fn luma(w: Weights, range: ColourRange, c: Colour) -> u8
    requires weights { AreWeights w }
    requires one { IsSumOf 1 c }
    ensures { result ≡ luma w range c }
{
    let parts = luma_parts(w, c);
    match range {
        ColourRange::Limited => ((40_800_000 + 219 * parts + 1_275_000) / 2_550_000) as u8,
        ColourRange::Full => ((parts + 5_000) / 10_000) as u8,
    }
}

/// The channel of a chroma.
fn channel_of(which: ChromaChannel, c: Colour) -> u32
    ensures { result ≡ channel_of which c }
{
    match which {
        ChromaChannel::Blue => c.b,
        ChromaChannel::Red => c.r,
    }
}

/// What that channel has of the luma.
fn chroma_weight(which: ChromaChannel, w: Weights) -> u32
    requires { AreWeights w }
    ensures value { result ≡ chroma_weight which w }
    ensures less { result < 5000 }
{
    match which {
        ChromaChannel::Blue => w.blue,
        ChromaChannel::Red => w.red,
    }
}

/// By what a chroma of `n` colours together is divided.
fn chroma_divisor(range: ColourRange, n: u32, weight: u32) -> u32
    requires some { 1 ≤ n }
    requires few { n ≤ 4 }
    requires part { weight < 5000 }
    ensures value { result ≡ chroma_divisor range n weight }
    ensures some { 0 < result }
    ensures most { result ≤ max_chroma_divisor }
{
    match range {
        ColourRange::Limited => n * (255 * (10_000 - weight)),
        ColourRange::Full => n * (2 * (10_000 - weight)),
    }
}

/// What the samples of a chroma have in common, where each is of `pixels` pixels.
pub fn chroma_scale(
    which: ChromaChannel,
    weights: Weights,
    range: ColourRange,
    pixels: u32,
) -> ChromaScale
    requires weights { AreWeights weights }
    requires some { 1 ≤ pixels }
    requires few { pixels ≤ 4 }
    ensures which { result.which ≡ which }
    ensures weights { result.weights ≡ weights }
    ensures range { result.range ≡ range }
    ensures pixels { result.pixels ≡ pixels }
    ensures scale { IsChromaScale result }
{
    ChromaScale {
        which,
        weights,
        range,
        pixels,
        divisor: Divisor::new(chroma_divisor(range, pixels, chroma_weight(which, weights))),
    }
}

/// What is divided: 128 divisors, and how far the channel lies from the luma.
fn chroma_above(range: ColourRange, divisor: u32, channel: u32, parts: u32) -> u32
    requires spread { IsSpread range divisor channel parts }
    ensures value { result ≡ chroma_above range divisor channel parts }
    ensures small { result + divisor / 2 < 257 * divisor }
    ensures fits { result ≤ 2500000000 }
{
    match range {
        ColourRange::Limited => 128 * divisor + 1_120_000 * channel - 112 * parts,
        ColourRange::Full => 128 * divisor + 10_000 * channel - parts,
    }
}

/// A chroma of the pixels of which `c` is the sum.
pub fn chroma(scale: ChromaScale, c: Colour) -> u8
    requires scale { IsChromaScale scale }
    requires sum { IsSumOf scale.pixels c }
    ensures { result ≡ chroma scale.which scale.weights scale.range scale.pixels c }
{
    let channel = channel_of(scale.which, c);
    let parts = luma_parts(scale.weights, c);
    let above = chroma_above(scale.range, scale.divisor.value, channel, parts);
    let sample = scale.divisor.quotient(above + scale.divisor.value / 2);
    sample.min(255) as u8
}
