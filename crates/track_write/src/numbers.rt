//! Numbers, times and colours, put behind a text.

ghost use Rattle.std.specs.Prelude.{◌≡◌, ◌<◌, ◌++◌, ◌∷◌, OnOk};
ghost use Rattle.std.specs.Fmt.{decimal, signed_decimal};
ghost use Rattle.std.specs.Int.RustNames.{unsigned_abs};
ghost use Rattle.track_write.specs.Spelling.{digit, two_digits, three_digits, fraction_text, thousandths_text, milli_text, hex_digit, byte_text, colour_text};
ghost use Rattle.track_write.specs.Spelling.{flag_text, time_text};

use ass_num::{Mem, Milli, Rgba};
use std::alloc::Global;

/// The last decimal digit.
fn digit(n: u64) -> u8
    ensures { result ≡ digit n }
{
    b'0' + (n % 10) as u8
}

fn put_two(text: &mut Vec<u8>, n: u64) -> Mem<()>
    ensures { OnOk result (text.new.items ≡ text.old.items ++ two_digits n) }
{
    text.extend_from_slice(&[digit(n / 10), digit(n)])?;
    Ok(())
}

fn put_three(text: &mut Vec<u8>, n: u64) -> Mem<()>
    ensures { OnOk result (text.new.items ≡ text.old.items ++ three_digits n) }
{
    text.extend_from_slice(&[digit(n / 100), digit(n / 10), digit(n)])?;
    Ok(())
}

/// A whole number.
pub fn put_whole(alloc: Global, text: &mut Vec<u8>, n: i64) -> Mem<()>
    ensures { OnOk result (text.new.items ≡ text.old.items ++ signed_decimal n) }
{
    let number = format!(in alloc; "{n}")?;
    text.extend_from_slice(number.as_bytes())?;
    Ok(())
}

fn put_decimal(alloc: Global, text: &mut Vec<u8>, n: u64) -> Mem<()>
    ensures { OnOk result (text.new.items ≡ text.old.items ++ decimal n) }
{
    let number = format!(in alloc; "{n}")?;
    text.extend_from_slice(number.as_bytes())?;
    Ok(())
}

/// What stands behind the whole part of so many thousandths below 1,000.
fn put_fraction(text: &mut Vec<u8>, n: u64) -> Mem<()>
    requires { n < 1000 }
    ensures { OnOk result (text.new.items ≡ text.old.items ++ fraction_text n) }
{
    if n == 0 {
        return Ok(());
    }
    text.push(b'.')?;
    if n % 100 == 0 {
        text.push(digit(n / 100))?;
        Ok(())
    } else if n % 10 == 0 {
        put_two(text, n / 10)
    } else {
        put_three(text, n)
    }
}

fn put_thousandths(alloc: Global, text: &mut Vec<u8>, n: u64) -> Mem<()>
    ensures { OnOk result (text.new.items ≡ text.old.items ++ thousandths_text n) }
{
    put_decimal(alloc, text, n / 1_000)?;
    put_fraction(text, n % 1_000)
}

/// A number in thousandths.
pub fn put_milli(alloc: Global, text: &mut Vec<u8>, number: Milli) -> Mem<()>
    ensures { OnOk result (text.new.items ≡ text.old.items ++ milli_text number) }
{
    if number < 0 {
        text.push(b'-')?;
    }
    put_thousandths(alloc, text, number.unsigned_abs())
}

/// A digit of base 16.
fn hex_digit(d: u8) -> u8
    requires { d < 16 }
    ensures { result ≡ hex_digit d }
{
    if d < 10 { b'0' + d } else { b'A' - 10 + d }
}

fn put_byte(text: &mut Vec<u8>, byte: u8) -> Mem<()>
    ensures { OnOk result (text.new.items ≡ text.old.items ++ byte_text byte) }
{
    text.extend_from_slice(&[hex_digit(byte / 16), hex_digit(byte % 16)])?;
    Ok(())
}

/// A colour.
pub fn put_colour(text: &mut Vec<u8>, colour: Rgba) -> Mem<()>
    ensures { OnOk result (text.new.items ≡ text.old.items ++ colour_text colour) }
{
    text.extend_from_slice(b"&H")?;
    put_byte(text, colour.a)?;
    put_byte(text, colour.b)?;
    put_byte(text, colour.g)?;
    put_byte(text, colour.r)
}

/// What is on is -1.
pub fn put_flag(text: &mut Vec<u8>, flag: bool) -> Mem<()>
    ensures { OnOk result (text.new.items ≡ text.old.items ++ flag_text flag) }
{
    let number: &[u8] = if flag { b"-1" } else { b"0" };
    text.extend_from_slice(number)?;
    Ok(())
}

fn put_part(text: &mut Vec<u8>, mark: u8, n: u64) -> Mem<()>
    ensures { OnOk result (text.new.items ≡ text.old.items ++ mark ∷ two_digits n) }
{
    text.push(mark)?;
    put_two(text, n)
}

/// A time in milliseconds.
pub fn put_time(alloc: Global, text: &mut Vec<u8>, time: i64) -> Mem<()>
    ensures { OnOk result (text.new.items ≡ text.old.items ++ time_text (unsigned_abs time)) }
{
    let time = time.unsigned_abs();
    put_decimal(alloc, text, time / 3_600_000)?;
    put_part(text, b':', time / 60_000 % 60)?;
    put_part(text, b':', time / 1_000 % 60)?;
    put_part(text, b'.', time / 10 % 100)
}
