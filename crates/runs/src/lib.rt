//! Runs of equal marks: packing a box of marked cells into the shortest list of runs, and reading
//! such a list back by look-up and by a walk.
#![tactic(auto)]

mod mark;
mod marked;
mod memory;
mod packing;
mod run;
mod runs;
mod table;
mod walk;

pub use mark::Mark;
pub use marked::{MarkedBox, Placed};
pub use memory::RunMemory;
pub use packing::{needed, pack};
pub use run::Run;
pub use runs::Runs;
pub use table::RunTable;
pub use walk::RunWalk;
