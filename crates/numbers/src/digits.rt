//! Decimal digits, read from the front of a text.
ghost use Rattle.std.specs.Prelude.{◌≡◌, ℕ, ◌+◌, ◌-◌, ◌*◌, ◌^◌, ◌≤◌, List};
ghost use Rattle.std.specs.Borrow.{Bor};
ghost use Rattle.std.specs.Option.{option_map};
ghost use Rattle.numbers.specs.Numerals.{below, whole_number};
ghost use Rattle.numbers.specs.Fronts.{front};

/// A number with one more digit at its end, where it fits 64 bits.
fn with_digit(number: u64, byte: u8) -> Option<u64>
    requires { (48 ≤ byte) × (byte ≤ 57) }
    ensures { result ≡ below (2 ^ 64) (number * 10 + (byte - 48)) }
{
    number.checked_mul(10)?.checked_add(u64::from(byte - b'0'))
}

/// The number that the digits at the front of a text write after those of `number`, and what follows
/// them, where the number fits 64 bits.
pub(crate) fn digits(text: &[u8], number: u64) -> Option<(u64, &[u8])>
    ensures { option_map (λ (p : ℕ × Bor (List ℕ)). (p.0, p.1.now)) result ≡ front number text.now }
{
    let mut sum = number;
    let mut rest = text;
    while let [byte @ b'0'..=b'9', after @ ..] = rest {
        sum = with_digit(sum, *byte)?;
        rest = after;
    }
    Some((sum, rest))
}

/// The number that a text of digits writes, where it fits 64 bits.
pub(crate) fn number(text: &[u8]) -> Option<u64>
    ensures { result ≡ whole_number (2 ^ 64) text.now }
{
    let (sum, rest) = digits(text, 0)?;
    (!text.is_empty() && rest.is_empty()).then_some(sum)
}
