//! What a bounding box is asked.
ghost use Rattle.std.specs.Prelude.{◌≡◌, Decides};
ghost use Rattle.cells.specs.Area.{extent, width, size, place_of, grown};

use crate::bounding_box::BoundingBox;
use crate::position::Position;

impl BoundingBox {
    /// The box that holds one position.
    pub fn around(at: Position) -> BoundingBox
        ensures { extent result ≡ record { top = at.row; left = at.column; bottom = at.row; right = at.column } }
    {
        BoundingBox { start: at, end: at }
    }

    /// The least box that holds this one and a position.
    pub fn including(&self, at: Position) -> BoundingBox
        ensures { extent result ≡ grown (extent self.now) at.row at.column }
    {
        let start = Position {
            row: self.start.row.min(at.row),
            column: self.start.column.min(at.column),
        };
        let end = Position {
            row: self.end.row.max(at.row),
            column: self.end.column.max(at.column),
        };
        BoundingBox { start, end }
    }

    /// The first row and column.
    pub fn start(&self) -> Position
        ensures { result ≡ self.now.start }
    {
        self.start
    }

    /// The last row and column.
    pub fn end(&self) -> Position
        ensures { result ≡ self.now.end }
    {
        self.end
    }

    /// How many columns the box has.
    pub fn width(&self) -> u64
        ensures { result ≡ width (extent self.now) }
    {
        u64::from(self.end.column - self.start.column) + 1
    }

    /// How many positions the box has: at most 2^34.
    pub fn positions(&self) -> u64
        ensures { result ≡ size (extent self.now) }
    {
        let height = u64::from(self.end.row - self.start.row) + 1;
        height * self.width()
    }

    /// The place of a position in the box, counted row by row from 0, or none outside it.
    pub fn place(&self, row: u32, column: u32) -> Option<u64>
        ensures { result ≡ place_of (extent self.now) row column }
    {
        let rows = self.start.row..=self.end.row;
        let columns = self.start.column..=self.end.column;
        if !rows.contains(&row) || !columns.contains(&column) {
            return None;
        }
        let rows_above = u64::from(row - self.start.row);
        Some(rows_above * self.width() + u64::from(column - self.start.column))
    }

    /// Whether two boxes are the same.
    // The derived `==`, here for what it says of the area that a box covers.
    pub fn same(&self, other: &BoundingBox) -> bool
        ensures { Decides result (extent self.now ≡ extent other.now) }
    {
        *self == *other
    }
}
