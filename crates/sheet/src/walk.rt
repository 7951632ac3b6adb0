//! A walk over the positions of a packed sheet, row by row.
ghost use Rattle.std.specs.Prelude.{◌≡◌, ◌<◌, ◌≤◌, true, is_some};
ghost use Rattle.runs.specs.Runs.{mark_at};
ghost use Rattle.cells.specs.Area.{extent, size};
ghost use Rattle.cells.specs.Going.{place};

use crate::xf::Xf;
use cells::{Position, Positions};
use runs::RunWalk;

mod steps;

/// A position with its style: none where the id is past the palette.
#[derive(Drop)]
pub struct Styled<'p, S> {
    pub at: Position,
    pub style: Option<&'p S>,
}

/// The positions of the box that are still to come. The runs are read beside them, at the same place
/// as long as there are runs.
#[derive(Drop)]
pub struct Walk<'s, 'p, S> {
    pub(crate) palette: &'p [Xf<S>],
    pub(crate) positions: Positions,
    pub(crate) ids: RunWalk<'s, u32>,
    ghost behind: { place positions < size (extent positions.area) → ids.place ≤ place positions },
    ghost level: { place positions < size (extent positions.area) → is_some (mark_at ids.table ids.place) ≡ true → ids.place ≡ place positions },
}
