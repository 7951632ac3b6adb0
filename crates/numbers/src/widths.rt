//! The types of whole number that an attribute may be read as.
ghost use Rattle.std.specs.Prelude.{◌≡◌, ℕ, ◌^◌, ◌≤◌};
ghost use Rattle.std.specs.Option.{option_map};
ghost use Rattle.numbers.specs.Numerals.{below};
ghost use Rattle.std.proofs.Common.{lit≤};

/// A type of whole number that an attribute may be read as.
pub trait Whole: Sized {
    /// The number that a value is.
    ghost amount: { Self → ℕ };

    /// The first number that is too large for the type.
    ghost limit: { ℕ };

    /// The value that is the number, where the type has one.
    // A function, and no `TryFrom<u64>`: a type with no such conversion, or with one that means another thing, can be a
    // `Whole` too.
    fn narrow(number: u64) -> Option<Self>
        ensures { option_map amount result ≡ below limit number };

    ghost bounded: { limit ≤ 2 ^ 64 };
}

// The four impls are alike, and are written out: the check of the project refuses an impl that a macro of its own writes.
impl Whole for u8 {
    ghost amount = { λ n. n };

    ghost limit = { 2 ^ 8 };

    ghost bounded = { lit≤ tt };

    #[tactic(auto, using(crate::specs::Widths::narrows_to))]
    fn narrow(number: u64) -> Option<u8> {
        u8::try_from(number).ok()
    }
}

impl Whole for u16 {
    ghost amount = { λ n. n };

    ghost limit = { 2 ^ 16 };

    ghost bounded = { lit≤ tt };

    #[tactic(auto, using(crate::specs::Widths::narrows_to))]
    fn narrow(number: u64) -> Option<u16> {
        u16::try_from(number).ok()
    }
}

impl Whole for u32 {
    ghost amount = { λ n. n };

    ghost limit = { 2 ^ 32 };

    ghost bounded = { lit≤ tt };

    #[tactic(auto, using(crate::specs::Widths::narrows_to))]
    fn narrow(number: u64) -> Option<u32> {
        u32::try_from(number).ok()
    }
}

impl Whole for usize {
    ghost amount = { λ n. n };

    ghost limit = { 2 ^ 64 };

    ghost bounded = { lit≤ tt };

    #[tactic(auto, using(crate::specs::Widths::narrows_to))]
    fn narrow(number: u64) -> Option<usize> {
        usize::try_from(number).ok()
    }
}
