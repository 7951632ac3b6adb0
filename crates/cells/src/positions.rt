//! The positions of a box, row by row.
ghost use Rattle.std.specs.Prelude.{◌≡◌, ◌+◌, ◌≤◌};

use crate::bounding_box::BoundingBox;

mod methods;

/// The next position of a box, in row order, or the start of the row past the last one at the end.
#[derive(Drop)]
pub struct Positions {
    area: BoundingBox,
    row: u32,
    column: u32,
    ghost first_row: { area.start.row ≤ row },
    ghost last_row: { row ≤ area.end.row + 1 },
    ghost first_column: { area.start.column ≤ column },
    ghost last_column: { column ≤ area.end.column },
    ghost at_end: { area.end.row + 1 ≤ row → column ≡ area.start.column },
}
