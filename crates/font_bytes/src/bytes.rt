//! Numbers in a file, which are big-endian. A byte behind the end counts as 0.

ghost use Rattle.std.specs.Prelude.{◌≡◌, ◌<◌, ◌^◌, pos, neg_ℤ, ◌≤ℤ◌};
ghost use Rattle.font_bytes.specs.Bytes.{u8_at, u16_at, u32_at, s16_at, s8_at, IsPlace};

/// The byte at a place.
pub fn u8_at(bytes: &[u8], i: usize) -> u8
    ensures { result ≡ u8_at bytes.now i }
{
    if i < bytes.len() {
        return bytes[i];
    }
    0
}

/// The number of two bytes.
pub fn u16_at(bytes: &[u8], i: usize) -> u16
    requires { i < 2 ^ 41 }
    ensures { result ≡ u16_at bytes.now i }
{
    u16::from(u8_at(bytes, i)) * 256 + u16::from(u8_at(bytes, i + 1))
}

/// The number of four bytes.
pub fn u32_at(bytes: &[u8], i: usize) -> u32
    requires { IsPlace i }
    ensures { result ≡ u32_at bytes.now i }
{
    u32::from(u16_at(bytes, i)) * 65_536 + u32::from(u16_at(bytes, i + 2))
}

/// The number of two bytes, whose first bit is the sign.
pub fn s16_at(bytes: &[u8], i: usize) -> i32
    requires { IsPlace i }
    ensures value { result ≡ s16_at bytes.now i }
    ensures least { neg_ℤ (pos 32768) ≤ℤ result }
    ensures most { result ≤ℤ pos 32767 }
{
    let number = i32::from(u16_at(bytes, i));
    if number < 32_768 {
        number
    } else {
        number - 65_536
    }
}

/// The number of a byte, whose first bit is the sign.
pub fn s8_at(bytes: &[u8], i: usize) -> i32
    ensures value { result ≡ s8_at bytes.now i }
    ensures least { neg_ℤ (pos 32768) ≤ℤ result }
    ensures most { result ≤ℤ pos 32767 }
{
    let number = i32::from(u8_at(bytes, i));
    if number < 128 { number } else { number - 256 }
}
