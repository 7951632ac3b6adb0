//! A box whose positions are numbered row by row, with marks at some of them.
ghost use Rattle.std.specs.Prelude.{◌≡◌, ℕ, List, length};
ghost use Rattle.std.specs.List.{slice_get};
ghost use Rattle.runs.specs.declared.marked.Placed.{Placed};
ghost use Rattle.runs.specs.Marks.{InOrder};

/// A mark, and the number of the position that it stands at.
#[derive(Clone, Copy)]
pub struct Placed<M> {
    pub place: u64,
    pub mark: M,
}

/// What packing reads: the marked cells of a box in the order of their places, the mark of every
/// other position, and how many positions there are.
pub trait MarkedBox<M> {
    ghost cells: { Self → List (Placed M) };

    ghost gap: { Self → M };

    ghost size: { Self → ℕ };

    /// How many positions the box has. The cells are in order, and inside.
    fn positions(&self) -> u64
        ensures value { result ≡ size self.now }
        ensures ordered { InOrder 0 (cells self.now) (size self.now) };

    fn gap_mark(&self) -> M
        ensures { result ≡ gap self.now };

    fn count(&self) -> usize
        ensures { result ≡ length (cells self.now) };

    /// The marked cell of that index, or none past the last.
    fn cell(&self, index: usize) -> Option<Placed<M>>
        ensures { result ≡ slice_get (cells self.now) index };
}
