//! How much a sheet's memory holds.

/// Room for a number of cells, and for a number of runs of each kind.
#[derive(Clone, Copy, Debug, PartialEq, Eq)]
pub struct Room {
    pub cells: usize,
    pub runs: usize,
}
