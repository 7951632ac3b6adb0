//! The binary64 nearest to a fraction under a power of ten.
ghost use Rattle.std.specs.Prelude.{◌≡◌, ℕ, ◌+◌, ◌-◌, ◌*◌, ◌^◌, ◌<◌, ◌≤◌, false};
ghost use Rattle.std.specs.Float.{binary64};
ghost use Rattle.std.specs.Float.Ieee.{round};
ghost use Rattle.std.specs.Float.Ieee.Exact.{HasValue};
ghost use Rattle.std.specs.Float.Ieee.Nearest.{closest};

use std::cmp::Ordering;

/// The powers of ten up to 10^18, each of which binary64 has.
const POWERS: [f64; 19] = [
    1e0, 1e1, 1e2, 1e3, 1e4, 1e5, 1e6, 1e7, 1e8, 1e9, 1e10, 1e11, 1e12, 1e13, 1e14, 1e15, 1e16,
    1e17, 1e18,
];

/// 2^53: up to here binary64 has every whole number.
const EXACT: u64 = 1 << 53;

/// The same number: the first with more binary digits than a binary64 keeps.
const TOO_LONG: u128 = EXACT as u128;

/// 2^60, more than any power of ten here.
const RAISED: u128 = 1 << 60;

/// A number that is raised by 2^60 counts 2^1014 of the smallest values of binary64, which are 2^-1074.
const RAISED_EXPONENT: u64 = 1014;

/// 2^52, the unit of the exponent in the bits of a binary64.
const EXPONENT_UNIT: u64 = 1 << 52;

/// A power of ten as a binary64.
// Three functions ask for the bound of k, and w and k come as two numbers. A `Scaled` with bounds as ghost fields would not do:
// the definition of what a text says makes one of any w and k first.
fn power_of_ten(k: usize) -> f64
    requires { k ≤ 18 }
    ensures { HasValue result false (10 ^ k) 1 }
{
    POWERS[k]
}

/// A fraction of two numbers that binary64 has, by one division.
fn by_division(w: u64, k: usize) -> f64
    requires { (w ≤ 2 ^ 53) × (k ≤ 18) }
    ensures { result ≡ round binary64 false w (10 ^ k) }
{
    w as f64 / power_of_ten(k)
}

/// The divisor, doubled until the quotient has 53 binary digits before the point, and how often.
fn doubled(dividend: u128, divisor: u128) -> (u128, u64)
    requires { (0 < divisor) × (divisor * 2 ^ 52 ≤ dividend) × (dividend < 2 ^ 120) }
    ensures times { result.0 ≡ divisor * 2 ^ result.1 }
    ensures few { result.1 < 68 }
    ensures least { result.0 * 2 ^ 52 ≤ dividend }
    ensures most { dividend < result.0 * 2 ^ 53 }
{
    // A count by `leading_zeros` can be one too many, and would need the test of this loop as well. The
    // limit is a constant: with `u128::from` in the loop, which was tried, the proof did not close.
    let mut unit = divisor;
    let mut count = 0;
    while unit * TOO_LONG <= dividend {
        unit *= 2;
        count += 1;
    }
    (unit, count)
}

/// The whole number nearest to a quotient, at a tie the even one.
fn quotient(dividend: u128, divisor: u128) -> u64
    requires { (0 < divisor) × (divisor < 2 ^ 120) × (dividend < divisor * 2 ^ 53) }
    ensures { result ≡ closest dividend divisor }
{
    let whole = (dividend / divisor) as u64;
    let twice = dividend % divisor * 2;
    match twice.cmp(&divisor) {
        Ordering::Less => whole,
        Ordering::Equal => whole + whole % 2,
        Ordering::Greater => whole + 1,
    }
}

/// A fraction by whole numbers alone: 53 binary digits of it, rounded, and the power of two that they
/// count, as the bits of a binary64.
fn by_long_division(w: u64, power: u64) -> f64
    requires { (2 ^ 53 < w) × (w < 2 ^ 60) × (0 < power) × (power < 2 ^ 60) }
    ensures { result ≡ round binary64 false w power }
{
    let dividend = u128::from(w) * RAISED;
    let (unit, count) = doubled(dividend, u128::from(power));
    let digits = quotient(dividend, unit);
    f64::from_bits((RAISED_EXPONENT + count) * EXPONENT_UNIT + digits)
}

/// The binary64 nearest to w / 10^k, at a tie the even one.
pub(crate) fn nearest(w: u64, k: usize) -> f64
    requires { (w < 10 ^ 18) × (k ≤ 18) }
    ensures { result ≡ round binary64 false w (10 ^ k) }
{
    if w <= EXACT {
        by_division(w, k)
    } else {
        by_long_division(w, 10u64.pow(k as u32))
    }
}
