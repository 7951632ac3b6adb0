//! Reading what the latest accepted pack wrote.
ghost use Rattle.std.specs.Prelude.{◌≡◌, ℕ};
ghost use Rattle.std.specs.Option.{option_map};
ghost use Rattle.runs.specs.Memory.{Ascending};
ghost use Rattle.cells.specs.Area.{extent};
ghost use Rattle.sheet.specs.Contents.{held, id_runs, kind_runs};
ghost use Rattle.sheet.specs.Reads.{mark_there, got, kind_there, walked};
ghost use Rattle.sheet.specs.Coming.{coming};

use crate::memory::Sheet;
use crate::walk::Walk;
use crate::xf::{Xf, style_of};
use cells::{BoundingBox, Positions};
use formats::CellFormat;
use runs::{Mark, RunMemory, RunTable, RunWalk};

/// The mark that the runs of a box give a position, or none outside it.
fn mark_there<M: Mark>(
    area: Option<BoundingBox>,
    runs: &RunMemory<M>,
    row: u32,
    column: u32,
) -> Option<M>
    ensures { result ≡ mark_there (option_map extent area) (held runs.now) row column }
{
    let place = area?.place(row, column)?;
    runs.table().look_up(place)
}

impl Sheet {
    /// The style at a position: none outside the box, before the first accepted pack, and for an id
    /// past the palette.
    pub fn get<'p, S>(&self, palette: &'p [Xf<S>], row: u32, column: u32) -> Option<&'p S>
        ensures { option_map (λ x. x.now) result ≡ got palette.now self.now row column }
    {
        let id = mark_there(self.area, &self.ids, row, column)?;
        style_of(palette, id)
    }

    /// The date kind at a position: none outside the box and before the first accepted pack.
    pub fn kind(&self, row: u32, column: u32) -> Option<CellFormat>
        ensures { result ≡ kind_there self.now row column }
    {
        mark_there(self.area, &self.kinds, row, column)
    }

    /// The positions of the box, row by row, with their styles.
    pub fn walk<'s, 'p, S>(&'s self, palette: &'p [Xf<S>]) -> Walk<'s, 'p, S>
        ensures { (k : ℕ) → coming result k ≡ walked palette.now self.now k }
    {
        let positions = self.area.map_or_else(Positions::none, Positions::new);
        Walk {
            palette,
            positions,
            ids: RunWalk::new(self.ids.table()),
        }
    }

    /// The box of the latest accepted pack.
    pub fn bounding_box(&self) -> Option<BoundingBox>
        ensures { result ≡ self.now.area }
    {
        self.area
    }

    /// The runs of style ids.
    pub fn id_runs(&self) -> RunTable<'_, u32>
        ensures runs { result ≡ id_runs self.now }
        ensures ascending { Ascending result }
    {
        self.ids.table()
    }

    /// The runs of date kinds.
    pub fn kind_runs(&self) -> RunTable<'_, CellFormat>
        ensures runs { result ≡ kind_runs self.now }
        ensures ascending { Ascending result }
    {
        self.kinds.table()
    }
}
