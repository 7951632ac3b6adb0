//! The cells that a sheet keeps.
ghost use Rattle.std.specs.Prelude.{◌≤◌, vec_len, vec_capacity};
ghost use Rattle.cells.specs.Words.{Ordered};

use crate::cell::Cell;

mod full;
mod methods;

pub use full::Full;

/// Memory for a number of cells, kept in order, with no position twice.
#[derive(Drop)]
pub struct CellMemory {
    cells: Vec<Cell>,
    // A field of its own: how many cells may be kept is what the maker asked for, whatever a capacity is.
    limit: usize,
    ghost ordered: { Ordered cells.items },
    ghost few: { vec_len cells ≤ limit },
    ghost room: { limit ≤ vec_capacity cells },
}
