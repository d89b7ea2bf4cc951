//! The sine and the cosine by a table of whole degrees.

ghost use Rattle.std.specs.Prelude.{◌≡◌, ◌≤◌, ◌<◌, pos, neg_ℤ, ◌≤ℤ◌};
ghost use Rattle.ass_num.specs.Limits.{IsWithin};
ghost use Rattle.ass_num.specs.Sine.{max_sine, quarter_sine, turn_sine, sine_of, cosine_of};

use crate::Milli;

/// The sines of 0 to 90 whole degrees, in ten-thousandths.
const SINES: [u16; 91] = [
    0, 175, 349, 523, 698, 872, 1045, 1219, 1392, 1564, 1736, 1908, 2079, 2250, 2419, 2588, 2756,
    2924, 3090, 3256, 3420, 3584, 3746, 3907, 4067, 4226, 4384, 4540, 4695, 4848, 5000, 5150, 5299,
    5446, 5592, 5736, 5878, 6018, 6157, 6293, 6428, 6561, 6691, 6820, 6947, 7071, 7193, 7314, 7431,
    7547, 7660, 7771, 7880, 7986, 8090, 8192, 8290, 8387, 8480, 8572, 8660, 8746, 8829, 8910, 8988,
    9063, 9135, 9205, 9272, 9336, 9397, 9455, 9511, 9563, 9613, 9659, 9703, 9744, 9781, 9816, 9848,
    9877, 9903, 9925, 9945, 9962, 9976, 9986, 9994, 9998, 10000,
];

/// The sine in the first quarter of a turn.
fn first_quarter(m: u32) -> i64
    requires { m ≤ 90000 }
    ensures value { result ≡ pos (quarter_sine m) }
    ensures most { result ≤ℤ pos max_sine }
{
    let degree = (m / 1_000).min(89);
    let below = u32::from(SINES[degree as usize]);
    let above = u32::from(SINES[degree as usize + 1]);
    i64::from(below + (above - below) * (m - degree * 1_000) / 1_000)
}

/// The sine in one turn.
fn one_turn(m: u32) -> i64
    requires { m < 360000 }
    ensures value { result ≡ turn_sine m }
    ensures within { IsWithin max_sine result }
{
    match m {
        0..=90_000 => first_quarter(m),
        90_001..=180_000 => first_quarter(180_000 - m),
        180_001..=270_000 => -first_quarter(m - 180_000),
        _ => -first_quarter(360_000 - m),
    }
}

/// The sine of an angle in thousandths of a degree, in ten-thousandths.
pub fn sine(m: Milli) -> i64
    ensures value { result ≡ sine_of m }
    ensures within { IsWithin max_sine result }
{
    one_turn(m.rem_euclid(360_000) as u32)
}

/// The cosine of an angle in thousandths of a degree, in ten-thousandths.
pub fn cosine(m: Milli) -> i64
    ensures value { result ≡ cosine_of m }
    ensures within { IsWithin max_sine result }
{
    sine(m.rem_euclid(360_000) + 90_000)
}
