//! Bytes as characters that stand for six bits each.

ghost use Rattle.std.specs.Prelude.{◌≡◌, ◌<◌, ◌^◌, IfOk};
ghost use Rattle.script_fonts.specs.Coding.{is_coded, six_bits, number_coded, high_byte, middle_byte, low_byte, decoded};
ghost use Rattle.script_fonts.specs.Attachments.{is_data};

use ass_num::{Items, Mem};
use std::alloc::Global;

/// Whether each character stands for six bits.
pub fn is_data(line: &[u8]) -> bool
    ensures { result ≡ is_data line.now }
{
    line.iter().all(|c| 33 <= *c && *c <= 96)
}

fn six_bits(character: u8) -> u32
    ensures value { result ≡ six_bits character }
    ensures range { result < 256 }
{
    u32::from(character.saturating_sub(b'!'))
}

/// The number of 24 bits that four characters say.
fn number_coded(a: u8, b: u8, c: u8, d: u8) -> u32
    ensures value { result ≡ number_coded a b c d }
{
    six_bits(a) * 262_144 + six_bits(b) * 4_096 + six_bits(c) * 64 + six_bits(d)
}

fn high_byte(number: u32) -> u8
    ensures { result ≡ high_byte number }
{
    (number / 65_536 % 256) as u8
}

fn middle_byte(number: u32) -> u8
    ensures { result ≡ middle_byte number }
{
    (number / 256 % 256) as u8
}

fn low_byte(number: u32) -> u8
    ensures { result ≡ low_byte number }
{
    (number % 256) as u8
}

/// The bytes that characters say: four say three, and at the end three say two and two say one.
pub fn decoded(alloc: Global, characters: &[u8]) -> Mem<Items<u8>>
    ensures { IfOk result (λ bytes. bytes ≡ decoded characters.now) }
{
    let mut bytes = Vec::with_capacity(alloc, characters.len() / 4 * 3 + 2)?;
    let mut rest = characters;
    while let [a, b, c, d, more @ ..] = rest {
        let number = number_coded(*a, *b, *c, *d);
        bytes.push(high_byte(number))?;
        bytes.push(middle_byte(number))?;
        bytes.push(low_byte(number))?;
        rest = more;
    }
    match rest {
        [a, b, c] => {
            let number = number_coded(*a, *b, *c, b'!');
            bytes.push(high_byte(number))?;
            bytes.push(middle_byte(number))?;
        }
        [a, b] => bytes.push(high_byte(number_coded(*a, *b, b'!', b'!')))?,
        _ => {}
    }
    Ok(Items::from_vec(bytes))
}
