//! Date kinds: what a cell's number format makes of its number.
#![tactic(auto)]

ghost use Rattle.formats.specs.Kinds.{same_kind, same_kind_decides, kind_name};
ghost use Rattle.std.specs.Prelude.{Some};

mod names;

pub use names::UnknownKind;
use runs::Mark;
use std::fmt;

/// A cell's number is a date or time of day, a length of time, or any other number.
#[derive(Clone, Copy, PartialEq, Eq)]
pub enum CellFormat {
    Other,
    DateTime,
    TimeDelta,
}

/// Date kinds are marks.
impl Mark for CellFormat {
    ghost agrees = { same_kind };

    ghost exact = { same_kind_decides };

    fn same(&self, other: &CellFormat) -> bool {
        *self == *other
    }
}

impl fmt::Display for CellFormat {
    ghost output = { λ x. Some (kind_name x) };

    fn fmt<W: fmt::Write>(&self, f: &mut fmt::Formatter<W>) -> fmt::Result {
        match *self {
            CellFormat::Other => f.write_str("Other"),
            CellFormat::DateTime => f.write_str("DateTime"),
            CellFormat::TimeDelta => f.write_str("TimeDelta"),
        }
    }
}
