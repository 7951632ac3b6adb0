//! Why a cell was not kept.
ghost use Rattle.std.specs.Prelude.{Some, codes};

use std::error::Error;
use std::fmt;

/// The memory keeps as many cells as it has room for, and the position is new.
#[derive(Clone, Copy, Debug, PartialEq, Eq)]
pub struct Full;

// By hand, since a derive (thiserror) would promise nothing of what is printed.
impl fmt::Display for Full {
    ghost output = { λ _. Some (codes "there is no room for another cell") };

    fn fmt<W: fmt::Write>(&self, f: &mut fmt::Formatter<W>) -> fmt::Result {
        f.write_str("there is no room for another cell")
    }
}

impl Error for Full {}
