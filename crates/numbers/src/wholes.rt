//! Whole numbers of any width.
ghost use Rattle.std.specs.Prelude.{◌≡◌};
ghost use Rattle.std.specs.Option.{option_map};
ghost use Rattle.numbers.specs.Numerals.{whole_number, Positional};

use crate::digits::number;
use crate::widths::Whole;

/// The whole number that the text writes, if the type has it.
#[tactic(auto, using(crate::proofs::Places::positional))]
pub fn whole<N: Whole>(text: &[u8]) -> Option<N>
    ensures value { option_map N.Whole.amount result ≡ whole_number N.Whole.limit text.now }
    ensures positional { Positional }
{
    N::narrow(number(text)?)
}
