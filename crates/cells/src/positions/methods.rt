//! Going through the positions of a box.
ghost use Rattle.std.specs.Prelude.{◌≡◌, ◌-◌, ◌≤◌};
ghost use Rattle.std.specs.Iterator.{at_most};
ghost use Rattle.cells.specs.Area.{extent, size};
ghost use Rattle.cells.specs.Going.{place, Stepped};

use crate::bounding_box::BoundingBox;
use crate::position::Position;
use crate::positions::Positions;

impl Positions {
    /// From the first position of a box on.
    pub fn new(area: BoundingBox) -> Positions
        ensures area { result.area ≡ area }
        ensures place { place result ≡ 0 }
    {
        Positions {
            area,
            row: area.start().row(),
            column: area.start().column(),
        }
    }

    /// No positions: past the last of some box.
    // An `Option<Positions>` in the walk over a sheet would need each of the walk's two invariants by cases.
    pub fn none() -> Positions
        ensures { size (extent result.area) ≤ place result }
    {
        let at = Position { row: 0, column: 0 };
        Positions {
            area: BoundingBox::around(at),
            row: 1,
            column: 0,
        }
    }
}

impl Iterator for Positions {
    type Item = Position;

    ghost next_gives = { Stepped };

    ghost remaining = { λ p. at_most (size (extent p.area) - place p) };

    fn next(&mut self) -> Option<Position> {
        let end = self.area.end();
        if self.row > end.row() {
            return None;
        }
        let at = Position {
            row: self.row,
            column: self.column,
        };
        if at.column < end.column() {
            self.column += 1;
        } else {
            self.column = self.area.start().column();
            self.row += 1;
        }
        Some(at)
    }
}
