//! Decimals.
ghost use Rattle.std.specs.Prelude.{Some, IfOk};
ghost use Rattle.numbers.specs.Decimals.{decimal_value};
ghost use Rattle.vectors.specs.Answers.{Says, bits_text};

use crate::given::Given;
use numbers::decimal;
use std::alloc::{AllocError, Global};
use std::fmt;
use std::num::f64_to_bits_with_nan;

/// A binary64, written as its bits.
#[derive(Clone, Copy)]
struct Bits(f64);

impl fmt::Display for Bits {
    ghost output = { λ bits. Some (bits_text bits.0) };

    fn fmt<W: fmt::Write>(&self, f: &mut fmt::Formatter<W>) -> fmt::Result {
        let bits = f64_to_bits_with_nan(self.0);
        write!(f, "{bits:016x}")
    }
}

/// What `numbers` answers to a decimal: the bits of the binary64, or none.
pub fn answered(heap: Global, text: &[u8]) -> Result<Given, AllocError>
    ensures { IfOk result (λ given. Says (λ value. Some (bits_text value)) (decimal_value text.now) given) }
{
    Given::value(heap, decimal(text).map(Bits))
}
