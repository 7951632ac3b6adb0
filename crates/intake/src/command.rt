//! What a line asks.
ghost use Rattle.std.specs.Prelude.{◌≡◌, ◌≢◌, MatchResult};
ghost use Rattle.intake.specs.Words.{desk_word};
ghost use Rattle.intake.specs.declared.command.DeskName.{DeskName};
ghost use Rattle.intake.specs.declared.misread.Misread.TheVariants.{UnknownName};

use crate::misread::Misread;
use formats::CellFormat;
use replicas::Call;
use sheet::Room;
use std::str::FromStr;

/// A desk, by the name of its sheet.
#[derive(Clone, Copy)]
pub enum DeskName {
    Loader,
    Floor,
}

/// Reads the name of a sheet.
impl FromStr for DeskName {
    type Err = Misread;

    ghost from_str_gives = { λ word r. MatchResult r (λ name. word ≡ desk_word name) (λ why. (why ≡ UnknownName) × ((name : DeskName) → word ≢ desk_word name)) };

    fn from_str(word: &str) -> Result<DeskName, Misread> {
        match word {
            "loader" => Ok(DeskName::Loader),
            "floor" => Ok(DeskName::Floor),
            _ => Err(Misread::UnknownName),
        }
    }
}

/// A question about a sheet, which changes nothing.
// A row and a column, and no `Position`, since a line may ask of any, on the sheet or off it.
#[derive(Clone, Copy)]
pub enum Question {
    Get { row: u32, column: u32 },
    Kind { row: u32, column: u32 },
    Runs,
    Walk,
}

/// What a line asks.
#[derive(Clone, Copy)]
pub enum Command {
    /// Make the sheet of a desk, with room for a number of cells and of runs.
    Open { name: DeskName, room: Room },
    /// Add an entry to the palette.
    AddXf { kind: CellFormat },
    /// Make a call at a sheet.
    Make { name: DeskName, call: Call },
    /// Answer a question about a sheet.
    Ask { name: DeskName, question: Question },
    /// Say whether the two sheets are the same.
    Agree,
}
