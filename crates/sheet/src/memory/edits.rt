//! Making a sheet, and changing its cells.
ghost use Rattle.std.specs.Prelude.{◌≡◌, length, IfOk};
ghost use Rattle.sheet.specs.Edits.{Blank, Made, PutDone, ClearDone};

use crate::answers::{ClearRefusal, Put, PutRefusal};
use crate::memory::{Sheet, SheetMemory};
use crate::room::Room;
use crate::xf::Xf;
use cells::{CellMemory, Position};
use formats::CellFormat;
use runs::RunMemory;
use std::alloc::{AllocError, Global};

impl SheetMemory {
    /// Memory with that room: no cells, and runs of id 0 and of `Other` that end at 0.
    pub fn with_room(heap: Global, room: Room) -> Result<SheetMemory, AllocError>
        ensures { IfOk result (λ m. Blank room.cells room.runs m) }
    {
        Ok(SheetMemory {
            cells: CellMemory::new(heap, room.cells)?,
            ids: vec![in heap; 0; room.runs]?,
            id_ends: vec![in heap; 0; room.runs]?,
            kinds: vec![in heap; CellFormat::Other; room.runs]?,
            kind_ends: vec![in heap; 0; room.runs]?,
        })
    }
}

impl Sheet {
    /// An empty sheet over that memory. Cells that the memory may hold already are forgotten.
    pub fn new(memory: SheetMemory) -> Sheet
        ensures { Made memory result }
    {
        let SheetMemory {
            mut cells,
            ids,
            id_ends,
            kinds,
            kind_ends,
        } = memory;
        cells.clear();
        Sheet {
            cells,
            area: None,
            ids: RunMemory::over(ids, id_ends),
            kinds: RunMemory::over(kinds, kind_ends),
        }
    }

    /// Keeps a style id at a position, in the place of an earlier one there.
    pub fn put<S>(
        &mut self,
        palette: &[Xf<S>],
        row: u32,
        column: u32,
        id: u32,
    ) -> Result<Put, PutRefusal>
        ensures { PutDone (length palette.now) self.old row column id result self.new }
    {
        let at = Position::new(row, column).ok_or(PutRefusal::OffSheet)?;
        if id == 0 || id as usize >= palette.len() {
            return Ok(Put::Ignored);
        }
        self.cells.keep(at, id)?;
        Ok(Put::Kept)
    }

    /// Forgets the cell at a position, and answers whether one stood there.
    pub fn clear(&mut self, row: u32, column: u32) -> Result<bool, ClearRefusal>
        ensures { ClearDone self.old row column result self.new }
    {
        let at = Position::new(row, column).ok_or(ClearRefusal::OffSheet)?;
        Ok(self.cells.remove(at))
    }
}
