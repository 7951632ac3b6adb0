//! Texts as the vector file writes them: every byte outside `!`..`~`, and `%` and `|`, as `%XX`, an
//! empty text as `-`.
ghost use Rattle.std.specs.Prelude.{◌≡◌, ℕ, ◌+◌, ◌*◌, ◌<◌, List, MatchOption, IfOk};
ghost use Rattle.std.specs.Option.{SomeIff};
ghost use Rattle.std.specs.Char.{digit_value};
ghost use Rattle.vectors.specs.Fields.{Begins, FieldOf, plain};

use std::alloc::{AllocError, Global};
use std::fmt;

/// The number that two hexadecimal digits write.
// No `from_str_radix`: it reads a `&str`, and a sign for the first digit.
fn two_digits(high: u8, low: u8) -> Option<u8>
    ensures { SomeIff result ((digit_value high < 16) × (digit_value low < 16)) (digit_value high * 16 + digit_value low) }
{
    let tens = (high as char).to_digit(16)?;
    let ones = (low as char).to_digit(16)?;
    Some((tens * 16 + ones) as u8)
}

/// The first byte that a field writes, and the rest of the field.
fn first_byte(field: &[u8]) -> Option<(u8, &[u8])>
    ensures { MatchOption result ((byte : ℕ) (rest : List ℕ) → Begins field.now byte rest → ⊥) (λ p. Begins field.now p.0 p.1.now) }
{
    match field {
        [b'%', high, low, rest @ ..] => Some((two_digits(*high, *low)?, rest)),
        [] | [b'%', ..] => None,
        [byte, rest @ ..] => Some((*byte, rest)),
    }
}

/// The text that a field writes; none where a `%` is not followed by two digits.
pub fn decoded(heap: Global, field: &str) -> Result<Option<Vec<u8>>, AllocError>
    ensures { IfOk result (λ o. MatchOption o ((text : List ℕ) → FieldOf field.now text → ⊥) (λ text. FieldOf field.now text.items)) }
{
    let mut text = Vec::new(heap);
    if field == "-" {
        return Ok(Some(text));
    }
    let mut rest = field.as_bytes();
    while let Some((byte, after)) = first_byte(rest) {
        text.push(byte)?;
        rest = after;
    }
    Ok(rest.is_empty().then_some(text))
}

/// Whether a text shows a byte as it is.
fn is_plain(byte: u8) -> bool
    ensures { result ≡ plain byte }
{
    byte.is_ascii_graphic() && !matches!(byte, b'%' | b'|')
}

/// Writes bytes, those that pass the test as they are.
fn show<W: fmt::Write, F: Fn(u8) -> bool>(
    bytes: &[u8],
    is_shown: F,
    f: &mut fmt::Formatter<W>,
) -> fmt::Result
    requires { F.IsAlwaysCallable is_shown }
{
    for byte in bytes {
        if is_shown(*byte) {
            f.write_char(*byte as char)?;
        } else {
            write!(f, "%{byte:02X}")?;
        }
    }
    Ok(())
}

/// A key or a value, written as a part of an answer: `=` as `%3D` too.
#[derive(Clone, Copy)]
pub struct Part<'t>(pub &'t [u8]);

impl fmt::Display for Part<'_> {
    fn fmt<W: fmt::Write>(&self, f: &mut fmt::Formatter<W>) -> fmt::Result {
        show(self.0, |byte| is_plain(byte) && byte != b'=', f)
    }
}

/// A text, written as a whole answer: `-` where it is empty, and a lone `-` or `=` as `%2D` or `%3D`.
#[derive(Clone, Copy)]
pub struct Whole<'t>(pub &'t [u8]);

impl fmt::Display for Whole<'_> {
    fn fmt<W: fmt::Write>(&self, f: &mut fmt::Formatter<W>) -> fmt::Result {
        match self.0 {
            [] => f.write_str("-"),
            [b'-'] => f.write_str("%2D"),
            [b'='] => f.write_str("%3D"),
            bytes => show(bytes, is_plain, f),
        }
    }
}
