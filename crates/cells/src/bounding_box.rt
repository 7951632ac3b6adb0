//! The bounding box of some cells.
ghost use Rattle.std.specs.Prelude.{◌≤◌};

use crate::position::Position;

mod methods;

/// The box from a first to a last row and from a first to a last column. None whose ends are out of
/// order can be made.
// No `Model` with the area as its value: an area off the sheet has no fields to give back, as `Copy` and `==` ask.
#[derive(Clone, Copy, Debug, PartialEq, Eq, Hash)]
pub struct BoundingBox {
    start: Position,
    end: Position,
    ghost rows: { start.row ≤ end.row },
    ghost columns: { start.column ≤ end.column },
}
