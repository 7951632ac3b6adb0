//! Positions of a sheet.
ghost use Rattle.std.specs.Prelude.{◌≡◌, ◌+◌, ◌*◌, ◌<◌, MatchOption};

/// How many rows a sheet has.
const ROWS: u32 = 1_048_576;

/// How many columns a sheet has.
const COLUMNS: u32 = 16_384;

/// A row and a column of a sheet, both counted from 0. None off the sheet can be made. The order is row
/// by row, and in a row column by column.
#[derive(Clone, Copy, Debug, PartialEq, Eq, PartialOrd, Ord, Hash)]
pub struct Position {
    pub(crate) row: u32,
    pub(crate) column: u32,
    ghost row_within: { row < 1048576 },
    ghost column_within: { column < 16384 },
}

impl Position {
    /// The position, or none where row or column is off the sheet.
    pub fn new(row: u32, column: u32) -> Option<Position>
        ensures { MatchOption result ((row < 1048576) × (column < 16384) → ⊥) (λ p. (p.row ≡ row) × (p.column ≡ column)) }
    {
        // made after the test, as `then_some` would not do: no position off the sheet can be made
        if row < ROWS && column < COLUMNS {
            Some(Position { row, column })
        } else {
            None
        }
    }

    pub fn row(&self) -> u32
        ensures { result ≡ self.now.row }
    {
        self.row
    }

    pub fn column(&self) -> u32
        ensures { result ≡ self.now.column }
    {
        self.column
    }

    /// The position's number on the sheet, counted row by row.
    pub fn number(&self) -> u64
        ensures { result ≡ self.now.row * 16384 + self.now.column }
    {
        u64::from(self.row) * 16_384 + u64::from(self.column)
    }
}
