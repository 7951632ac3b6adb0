//! The sheet, over the memory that its maker hands to it.
use cells::{BoundingBox, CellMemory};
use formats::CellFormat;
use runs::RunMemory;

mod edits;
mod packs;
mod reads;

/// What a sheet lies over: room for some cells, and for as many runs of each kind as the shortest of
/// the other four has entries. Marks and ends are lists of their own, since each may have its length.
#[derive(Drop)]
pub struct SheetMemory {
    pub cells: CellMemory,
    pub ids: Vec<u32>,
    pub id_ends: Vec<u64>,
    pub kinds: Vec<CellFormat>,
    pub kind_ends: Vec<u64>,
}

/// The cells that are kept now, and the box and the runs of the latest accepted pack.
// Put, clear, get and kind take a row and a column, and no `Position`, since any numbers may come.
#[derive(Drop)]
pub struct Sheet {
    cells: CellMemory,
    area: Option<BoundingBox>,
    ids: RunMemory<u32>,
    kinds: RunMemory<CellFormat>,
}
