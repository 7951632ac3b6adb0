//! Whole numbers.
ghost use Rattle.std.specs.Prelude.{◌≡◌, ◌^◌, Some, IfOk, decimal};
ghost use Rattle.numbers.specs.Numerals.{whole_number};
ghost use Rattle.vectors.specs.Answers.{Says};
ghost use Rattle.vectors.specs.Widths.{bits};

use crate::given::Given;
use crate::line::Width;
use numbers::whole;
use std::alloc::{AllocError, Global};

/// The whole number of that width that a text writes.
fn number(width: Width, text: &[u8]) -> Option<u64>
    ensures { result ≡ whole_number (2 ^ bits width) text.now }
{
    match width {
        Width::Bits8 => whole::<u8>(text).map(u64::from),
        Width::Bits16 => whole::<u16>(text).map(u64::from),
        Width::Bits32 => whole::<u32>(text).map(u64::from),
        Width::Bits64 => whole::<usize>(text).map(|number| number as u64),
    }
}

/// What `numbers` answers to a whole number of that width: the number, or none.
pub fn answered(heap: Global, width: Width, text: &[u8]) -> Result<Given, AllocError>
    ensures { IfOk result (λ given. Says (λ n. Some (decimal n)) (whole_number (2 ^ bits width) text.now) given) }
{
    Given::value(heap, number(width, text))
}
