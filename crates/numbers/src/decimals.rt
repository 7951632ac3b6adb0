//! Decimals: a sign, digits with a point, an exponent.
ghost use Rattle.std.specs.Prelude.{◌≡◌, ℕ, List, pos, ◌-ℤ◌, nat_eq};
ghost use Rattle.std.specs.Borrow.{Bor};
ghost use Rattle.std.specs.Option.{option_map};
ghost use Rattle.numbers.specs.Cuts.{begins, without};
ghost use Rattle.numbers.specs.Decimals.{is_minus, is_sign, signed, power_within, magnitude, decimal_of, decimal_value};
ghost use Rattle.numbers.specs.Fronts.{power_below, past_point};

use crate::digits::{digits, number};
use crate::rounding::nearest;

/// What a decimal says: w / 10^k, negative or not.
#[derive(Clone, Copy)]
pub struct Scaled {
    /// Whether a minus sign stands in front: a flag, as the sign of a binary64 is one.
    pub negative: bool,
    /// The digits, those before the point and those after it, as one number.
    pub w: u64,
    /// The power of ten under them.
    pub k: usize,
}

/// The first number that is too large for the digits of a decimal: 10^18.
const TOO_LARGE: u64 = 1_000_000_000_000_000_000;

/// The largest power of ten that may stand under a decimal.
const MOST_PLACES: usize = 18;

/// As many places as there are digits after the point, less an exponent, where that is no more than
/// the limit and not below 0.
fn places(after: usize, negative: bool, size: u64) -> Option<usize>
    ensures { result ≡ power_within (pos after -ℤ signed negative size) }
{
    // The sign and the size stay two values: one signed number takes 128 bits, and is no plainer.
    let size = size as usize;
    let count = if negative {
        after.checked_add(size)?
    } else {
        after.checked_sub(size)?
    };
    (count <= MOST_PLACES).then_some(count)
}

/// Whether a minus sign stands in front of a text, and the text without its sign.
fn sign_and_size(text: &[u8]) -> (bool, &[u8])
    ensures negative { result.0 ≡ begins is_minus text.now }
    ensures size { result.1.now ≡ without is_sign text.now }
{
    match text {
        [b'-', size @ ..] => (true, size),
        [b'+', size @ ..] => (false, size),
        _ => (false, text),
    }
}

/// The power of ten under a decimal's digits, of which `after` stand after the point, from what
/// follows them.
fn power_under(after: usize, part: &[u8]) -> Option<usize>
    ensures { result ≡ power_below after part.now }
{
    match part {
        [] => places(after, false, 0),
        [b'e' | b'E', tail @ ..] => {
            let (negative, size) = sign_and_size(tail);
            places(after, negative, number(size)?)
        }
        _ => None,
    }
}

/// The number with the digits after a point at the front of a text, and what follows them.
fn past_point(text: &[u8], number: u64) -> Option<(u64, &[u8])>
    ensures { option_map (λ (p : ℕ × Bor (List ℕ)). (p.0, p.1.now)) result ≡ past_point number text.now }
{
    match text {
        [b'.', fraction @ ..] => digits(fraction, number),
        _ => Some((number, text)),
    }
}

/// What a text without its minus sign says, with that sign or without.
// It is handed the sign, since `magnitude`, by which its answer is defined, is.
fn scan(text: &[u8], negative: bool) -> Option<Scaled>
    ensures { result ≡ magnitude negative text.now }
{
    let (whole, after) = digits(text, 0)?;
    let (w, rest) = past_point(after, whole)?;
    if w >= TOO_LARGE {
        return None;
    }
    let fraction = (after.len() - rest.len()).saturating_sub(1);
    if text.len() - after.len() + fraction == 0 {
        return None;
    }
    let k = power_under(fraction, rest)?;
    Some(Scaled { negative, w, k })
}

/// What a text says.
fn read(text: &[u8]) -> Option<Scaled>
    ensures { result ≡ decimal_of text.now }
{
    match text {
        [b'-', size @ ..] => scan(size, true),
        _ => scan(text, false),
    }
}

/// The decimal that the text writes, as the nearest binary64.
pub fn decimal(text: &[u8]) -> Option<f64>
    ensures { result ≡ decimal_value text.now }
{
    let Scaled { negative, w, k } = read(text)?;
    let size = nearest(w, k);
    Some(if negative { -size } else { size })
}
