//! Reading a date kind by its name.
ghost use Rattle.std.specs.Prelude.{◌≡◌, ◌≢◌, Some, codes};
ghost use Rattle.std.specs.Result as results;
ghost use Rattle.formats.specs.Kinds.{kind_name};
ghost use Rattle.formats.specs.declared.CellFormat.{CellFormat};

use crate::CellFormat;
use std::error::Error;
use std::fmt;
use std::str::FromStr;

/// A text that is the name of no kind.
#[derive(Clone, Copy, Debug, PartialEq, Eq)]
pub struct UnknownKind;

// By hand, since a derive (thiserror) would promise nothing of what is printed.
impl fmt::Display for UnknownKind {
    ghost output = { λ _. Some (codes "a kind is Other, DateTime or TimeDelta") };

    fn fmt<W: fmt::Write>(&self, f: &mut fmt::Formatter<W>) -> fmt::Result {
        f.write_str("a kind is Other, DateTime or TimeDelta")
    }
}

impl Error for UnknownKind {}

/// Reads the name that `Display` writes.
impl FromStr for CellFormat {
    type Err = UnknownKind;

    ghost from_str_gives = { λ name r. results.MatchResult r (λ kind. name ≡ kind_name kind) (λ _. (kind : CellFormat) → name ≢ kind_name kind) };

    fn from_str(name: &str) -> Result<CellFormat, UnknownKind> {
        match name {
            "Other" => Ok(CellFormat::Other),
            "DateTime" => Ok(CellFormat::DateTime),
            "TimeDelta" => Ok(CellFormat::TimeDelta),
            _ => Err(UnknownKind),
        }
    }
}
