//! Powers by quarters, of numbers with 16 fraction bits.

ghost use Rattle.std.specs.Prelude.{◌≡◌, ◌≤◌, ◌*◌, ◌/◌};
ghost use Rattle.ass_num.specs.Limits.{one_16};
ghost use Rattle.ass_num.specs.Powers.{power_of, root_of, scaled};

/// 1 with 16 fraction bits.
const ONE: u64 = 65_536;

/// The square root of a number with 16 fraction bits.
fn root(x: u64) -> u64
    requires { x ≤ one_16 }
    ensures value { result ≡ root_of (x * one_16) }
    ensures unit { result ≤ one_16 }
{
    (x * ONE).isqrt()
}

/// The product of two numbers with 16 fraction bits, rounded down.
fn product(p: u64, x: u64) -> u64
    requires left { p ≤ one_16 }
    requires right { x ≤ one_16 }
    ensures value { result ≡ scaled p x }
    ensures unit { result ≤ one_16 }
{
    p * x / ONE
}

/// `x` to the power `q / 4`, where 65,536 is 1.
pub fn power(x: u32, q: u32) -> u32
    requires unit { x ≤ one_16 }
    requires low { 1 ≤ q }
    requires high { q ≤ 32 }
    ensures value { result ≡ power_of x q }
    ensures unit { result ≤ one_16 }
{
    let x = u64::from(x);
    let half = root(x);
    let mut p = ONE;
    for _turn in 0..q / 4 {
        p = product(p, x);
    }
    if q % 4 >= 2 {
        p = product(p, half);
    }
    if q % 2 == 1 {
        p = product(p, root(half));
    }
    p as u32
}
