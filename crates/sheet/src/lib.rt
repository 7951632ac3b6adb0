//! A sheet of styled cells: put, clear, pack, get, kind and walk.
#![tactic(auto)]

mod answers;
mod marked;
mod memory;
mod room;
mod walk;
mod xf;

pub use answers::{ClearRefusal, PackRefusal, Put, PutRefusal, RunCounts};
pub use memory::{Sheet, SheetMemory};
pub use room::Room;
pub use walk::{Styled, Walk};
pub use xf::Xf;
