//! What the calls of a sheet answer, and how they refuse.
ghost use Rattle.std.specs.Prelude.{◌≡◌, Some};
ghost use Rattle.sheet.specs.Refusals.{put_number, clear_number, pack_number, put_text, clear_text, pack_text};
ghost use Rattle.sheet.specs.declared.answers.PutRefusal.TheVariants.{Full};

use std::error::Error;
use std::fmt;

/// How a put that is not refused went.
#[derive(Clone, Copy, Debug, PartialEq, Eq)]
pub enum Put {
    /// The cell is kept with its id.
    Kept,
    /// The id is 0 or not below the palette's length, and nothing changed.
    Ignored,
}

/// Why a put was refused.
#[derive(Clone, Copy, Debug, PartialEq, Eq)]
pub enum PutRefusal {
    /// The row or the column is off the sheet.
    OffSheet,
    /// The position is new, and the sheet keeps as many cells as it has room for.
    Full,
}

/// Why a clear was refused.
// An enum of one case, since each call has a list of refusals of its own.
#[derive(Clone, Copy, Debug, PartialEq, Eq)]
pub enum ClearRefusal {
    /// The row or the column is off the sheet.
    OffSheet,
}

/// Why a pack was refused, with the number of runs that it needs.
#[derive(Clone, Copy, Debug, PartialEq, Eq)]
pub enum PackRefusal {
    /// There are more runs of style ids than the run memory has room for.
    IdRuns { needed: usize },
    /// There are more runs of date kinds than the run memory has room for.
    KindRuns { needed: usize },
}

/// How many runs of each kind an accepted pack wrote.
#[derive(Clone, Copy, Debug, PartialEq, Eq)]
pub struct RunCounts {
    pub ids: usize,
    pub kinds: usize,
}

impl PutRefusal {
    /// The number of the refusal, by which the project's rules name it.
    pub fn number(&self) -> u32
        ensures { result ≡ put_number self.now }
    {
        match *self {
            PutRefusal::OffSheet => 10,
            PutRefusal::Full => 11,
        }
    }
}

impl ClearRefusal {
    /// The number of the refusal, by which the project's rules name it.
    pub fn number(&self) -> u32
        ensures { result ≡ clear_number self.now }
    {
        match *self {
            ClearRefusal::OffSheet => 10,
        }
    }
}

impl PackRefusal {
    /// The number of the refusal, by which the project's rules name it.
    pub fn number(&self) -> u32
        ensures { result ≡ pack_number self.now }
    {
        match *self {
            PackRefusal::IdRuns { .. } => 12,
            PackRefusal::KindRuns { .. } => 13,
        }
    }
}

impl From<cells::Full> for PutRefusal {
    ghost from_gives = { λ _ refusal. refusal ≡ Full };

    fn from(_: cells::Full) -> Self {
        Self::Full
    }
}

// Each `Display` is by hand, since a derive (thiserror) would promise nothing of what is printed. The numbers stand in the
// texts, so that a refusal without a count is written in one piece: a writer with no room for it has then written nothing of it.
impl fmt::Display for PutRefusal {
    ghost output = { λ x. Some (put_text x) };

    fn fmt<W: fmt::Write>(&self, f: &mut fmt::Formatter<W>) -> fmt::Result {
        match *self {
            PutRefusal::OffSheet => f.write_str("refused 10 (the position is off the sheet)"),
            PutRefusal::Full => f.write_str("refused 11 (the sheet has no room for another cell)"),
        }
    }
}

impl fmt::Display for ClearRefusal {
    ghost output = { λ x. Some (clear_text x) };

    fn fmt<W: fmt::Write>(&self, f: &mut fmt::Formatter<W>) -> fmt::Result {
        match *self {
            ClearRefusal::OffSheet => f.write_str("refused 10 (the position is off the sheet)"),
        }
    }
}

impl fmt::Display for PackRefusal {
    ghost output = { λ x. Some (pack_text x) };

    fn fmt<W: fmt::Write>(&self, f: &mut fmt::Formatter<W>) -> fmt::Result {
        match *self {
            PackRefusal::IdRuns { needed } => {
                write!(
                    f,
                    "refused 12 {needed} (so many runs of style ids are needed)"
                )
            }
            PackRefusal::KindRuns { needed } => {
                write!(
                    f,
                    "refused 13 {needed} (so many runs of date kinds are needed)"
                )
            }
        }
    }
}

impl Error for PutRefusal {}

impl Error for ClearRefusal {}

impl Error for PackRefusal {}
