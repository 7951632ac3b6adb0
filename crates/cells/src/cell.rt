//! A cell that has a style.
use crate::position::Position;

/// A position with the id of its style.
#[derive(Clone, Copy, Debug, PartialEq, Eq, Hash)]
pub struct Cell {
    pub at: Position,
    pub id: u32,
}
