//! Keeping and forgetting cells.
ghost use Rattle.std.specs.Prelude.{◌≡◌, false, [], is_ok, IfOk, OnErr};
ghost use Rattle.std.specs.Option.{option_map};
ghost use Rattle.cells.specs.Area.{extent};
ghost use Rattle.cells.specs.Words.{Ordered, words_of, Bounds};
ghost use Rattle.cells.specs.Located.{Located};
ghost use Rattle.cells.specs.Kept.{Kept, Removed};

use crate::bounding_box::BoundingBox;
use crate::cell::Cell;
use crate::memory::{CellMemory, Full};
use crate::position::Position;
use std::alloc::{AllocError, Global};

/// The index of the cell at a position, or the index that a new one would have there: at once where
/// all cells come before it, else by binary search.
fn locate(cells: &[Cell], at: Position) -> Result<usize, usize>
    requires { Ordered cells.now }
    ensures { Located cells.now at result }
{
    // By number, since a search that compares row and then column runs two fifths more instructions.
    let wanted = at.number();
    match cells.last() {
        Some(last) if last.at.number() < wanted => Err(cells.len()),
        _ => cells.binary_search_by_key(&wanted, |cell| cell.at.number()),
    }
}

impl CellMemory {
    /// Memory for as many cells as `limit` says, with none in it.
    pub fn new(heap: Global, limit: usize) -> Result<CellMemory, AllocError>
        ensures { IfOk result (λ m. (m.cells.items ≡ []) × (m.limit ≡ limit)) }
    {
        let cells = Vec::with_capacity(heap, limit)?;
        Ok(CellMemory { cells, limit })
    }

    /// Forgets all cells.
    pub fn clear(&mut self)
        ensures none { self.new.cells.items ≡ [] }
        ensures limit { self.new.limit ≡ self.old.limit }
    {
        self.cells.clear();
    }

    /// Keeps an id at a position, in the place of an earlier one there. Where the memory is full and
    /// the position is new it is refused, and changes nothing.
    pub fn keep(&mut self, at: Position, id: u32) -> Result<(), Full>
        ensures kept { Kept self.old at id (is_ok result) self.new }
        ensures same { OnErr result (self.new ≡ self.old) }
    {
        match locate(&self.cells, at) {
            Ok(index) => self.cells[index] = Cell { at, id },
            Err(_) if self.cells.len() >= self.limit => return Err(Full),
            Err(index) => self.cells.insert(index, Cell { at, id }).unwrap(),
        }
        Ok(())
    }

    /// Forgets the cell at a position, and answers whether one stood there.
    pub fn remove(&mut self, at: Position) -> bool
        ensures removed { Removed self.old at result self.new }
        ensures same { result ≡ false → self.new ≡ self.old }
    {
        match locate(&self.cells, at) {
            Ok(index) => {
                self.cells.remove(index);
                true
            }
            Err(_) => false,
        }
    }

    /// The cells, in order.
    pub fn cells(&self) -> &[Cell]
        ensures value { result.now ≡ self.now.cells.items }
        ensures ordered { Ordered result.now }
    {
        self.cells.as_slice()
    }

    /// The least box around the cells, or none where there are none.
    pub fn bounding_box(&self) -> Option<BoundingBox>
        ensures { Bounds (words_of self.now.cells.items) (option_map extent result) }
    {
        let (first, others) = self.cells.split_first()?;
        let around = BoundingBox::around(first.at);
        let area = others
            .iter()
            .fold(around, |area, cell| area.including(cell.at));
        Some(area)
    }
}
