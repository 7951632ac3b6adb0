//! The cells of a sheet as packing reads them: each with the mark of its id, in the bounding box.
ghost use Rattle.std.specs.Prelude.{◌≡◌, ℕ, true, map, is_some};
ghost use Rattle.cells.specs.Area.{extent, inside, size};
ghost use Rattle.cells.specs.Words.{Ordered, words_of};
ghost use Rattle.sheet.specs.Palette.{kind_at};
ghost use Rattle.sheet.specs.Placing.{placed};

use crate::xf::{Xf, kind_of};
use cells::{BoundingBox, Cell};
use formats::CellFormat;
use runs::{MarkedBox, Placed};

/// Gives each style id a mark. Positions with no cell have the mark of id 0. A trait and no closure: the
/// list of marks is stated with a function of the id, and of a closure a contract knows but a relation.
pub trait Marking<M> {
    ghost of: { Self → ℕ → M };

    fn mark_of(&self, id: u32) -> M
        ensures { result ≡ of self.now id };
}

/// Each id is its own mark.
#[derive(Clone, Copy)]
pub struct Ids;

impl Marking<u32> for Ids {
    ghost of = { λ _ id. id };

    fn mark_of(&self, id: u32) -> u32 {
        id
    }
}

/// The mark of an id is its date kind.
#[derive(Drop)]
pub struct Kinds<'p, S> {
    pub palette: &'p [Xf<S>],
}

impl<'p, S> Marking<CellFormat> for Kinds<'p, S> {
    ghost of = { λ k id. kind_at k.palette.now id };

    fn mark_of(&self, id: u32) -> CellFormat {
        kind_of(self.palette, id)
    }
}

/// Ordered cells inside a box.
#[derive(Drop)]
pub struct MarkedCells<'s, K> {
    pub cells: &'s [Cell],
    pub area: BoundingBox,
    pub marking: K,
    ghost ordered: { Ordered cells.now },
    ghost held: { (r c : ℕ) → is_some (words_of cells.now r c) ≡ true → inside (extent area) r c ≡ true },
}

impl<'s, M, K: Marking<M>> MarkedBox<M> for MarkedCells<'s, K> {
    ghost cells = { λ b. map (placed (extent b.area) (K.Marking.of b.marking)) b.cells.now };

    ghost gap = { λ b. K.Marking.of b.marking 0 };

    ghost size = { λ b. size (extent b.area) };

    fn positions(&self) -> u64 {
        self.area.positions()
    }

    fn gap_mark(&self) -> M {
        self.marking.mark_of(0)
    }

    fn count(&self) -> usize {
        self.cells.len()
    }

    fn cell(&self, index: usize) -> Option<Placed<M>> {
        let cell = self.cells.get(index)?;
        let place = self.area.place(cell.at.row(), cell.at.column()).unwrap();
        let mark = self.marking.mark_of(cell.id);
        Some(Placed { place, mark })
    }
}
