//! Cells of a sheet: positions, the bounding box, and an ordered memory that keeps one style id at a
//! position.
#![tactic(auto)]

mod bounding_box;
mod cell;
mod memory;
mod position;
mod positions;

pub use bounding_box::BoundingBox;
pub use cell::Cell;
pub use memory::{CellMemory, Full};
pub use position::Position;
pub use positions::Positions;
