//! What a mark is: a value that can be compared.
ghost use Rattle.std.specs.Prelude.{◌≡◌, Bool, Decides, nat_eq};
ghost use Rattle.std.proofs.lemmas.Bool.Decides.{Decides-eqb};

/// A value that a run repeats. Its comparison says yes exactly where both values are one; it is never
/// refused, and lent for reading only, so it changes neither.
// A method, and no `Eq`: a type with no `==`, or with one that finds more values alike, can be a mark too.
pub trait Mark: Copy {
    // the comparison, as a function of the two values
    ghost agrees: { Self → Self → Bool };

    fn same(&self, other: &Self) -> bool
        ensures { Decides result (self.now ≡ other.now) };

    ghost exact: { (a b : Self) → Decides (agrees a b) (a ≡ b) };
}

/// Style ids are marks.
impl Mark for u32 {
    ghost agrees = { nat_eq };

    ghost exact = { Decides-eqb };

    fn same(&self, other: &u32) -> bool {
        *self == *other
    }
}
