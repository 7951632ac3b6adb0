//! Reading a line as a command.
ghost use Rattle.std.specs.Prelude.{◌≡◌, ◌≢◌, ◌⊎◌, IfErr, IfOk, MatchResult};
ghost use Rattle.std.specs.Str.Parse.{IsNumeral};
ghost use Rattle.formats.specs.Kinds.{kind_name};
ghost use Rattle.formats.specs.declared.CellFormat.{CellFormat};
ghost use Rattle.intake.specs.Words.{ReadsNumber, CallNamed, question_word, IsAt};

use crate::command::{Command, DeskName, Question};
use crate::misread::Misread;
use formats::CellFormat;
use replicas::Call;
use sheet::Room;
use std::num::IntErrorKind;
use std::str::{FromStr, SplitWhitespace};

/// The number that a word of digits alone writes.
fn number_of(word: &str) -> Result<u32, Misread>
    ensures reads { ReadsNumber word.now result }
    ensures why { IfErr result (λ why. ((why ≡ Misread.NotANumber) × ¬ IsNumeral 10 word.now) ⊎ (why ≡ Misread.PastThirtyTwoBits)) }
{
    if word.starts_with('+') {
        return Err(Misread::NotANumber);
    }
    word.parse::<u32>().map_err(|error| match *error.kind() {
        IntErrorKind::PosOverflow => Misread::PastThirtyTwoBits,
        _ => Misread::NotANumber,
    })
}

/// The date kind that a word names.
fn kind_of(word: &str) -> Result<CellFormat, Misread>
    ensures { MatchResult result (λ kind. word.now ≡ kind_name kind) (λ why. (why ≡ Misread.UnknownKind (record {})) × ((kind : CellFormat) → word.now ≢ kind_name kind)) }
{
    word.parse::<CellFormat>().map_err(Misread::UnknownKind)
}

/// The words of a line that are still to be read.
#[derive(Drop)]
struct Fields<'l> {
    words: SplitWhitespace<'l>,
}

impl<'l> Fields<'l> {
    /// The next word.
    fn word(&mut self) -> Result<&'l str, Misread> {
        self.words.next().ok_or(Misread::MissingField)
    }

    /// The next word, as a number.
    fn number(&mut self) -> Result<u32, Misread> {
        number_of(self.word()?)
    }

    /// No word is left.
    fn end(&mut self) -> Result<(), Misread> {
        if self.words.next().is_some() {
            return Err(Misread::ExtraField);
        }
        Ok(())
    }
}

/// `sheet NAME C R`, from the name on.
fn read_sheet(fields: &mut Fields<'_>) -> Result<Command, Misread> {
    let name = fields.word()?.parse::<DeskName>()?;
    let room = Room {
        cells: fields.number()? as usize,
        runs: fields.number()? as usize,
    };
    Ok(Command::Open { name, room })
}

/// A put, a clear or a pack, after its word; none at another word.
fn read_call(word: &str, fields: &mut Fields<'_>) -> Result<Option<Call>, Misread>
    ensures { IfOk result (λ call. CallNamed word.now call) }
{
    let call = match word {
        "put" => Call::Put {
            row: fields.number()?,
            column: fields.number()?,
            id: fields.number()?,
        },
        "clear" => Call::Clear {
            row: fields.number()?,
            column: fields.number()?,
        },
        "pack" => Call::Pack,
        _ => return Ok(None),
    };
    Ok(Some(call))
}

/// A question about a sheet, after its word.
fn read_question(word: &str, fields: &mut Fields<'_>) -> Result<Question, Misread>
    ensures { IfOk result (λ question. word.now ≡ question_word question) }
{
    match word {
        "get" => Ok(Question::Get {
            row: fields.number()?,
            column: fields.number()?,
        }),
        "kind" => Ok(Question::Kind {
            row: fields.number()?,
            column: fields.number()?,
        }),
        "runs" => Ok(Question::Runs),
        "walk" => Ok(Question::Walk),
        _ => Err(Misread::UnknownCall),
    }
}

/// What is asked of the sheet of a name, from the word after the name on.
fn read_at_desk(name: DeskName, fields: &mut Fields<'_>) -> Result<Command, Misread>
    ensures { IfOk result (λ command. IsAt name command) }
{
    let word = fields.word()?;
    if let Some(call) = read_call(word, fields)? {
        return Ok(Command::Make { name, call });
    }
    let question = read_question(word, fields)?;
    Ok(Command::Ask { name, question })
}

/// What the words of a line ask, from the first on.
fn read_command(fields: &mut Fields<'_>) -> Result<Command, Misread> {
    let word = fields.word()?;
    if let Ok(name) = word.parse::<DeskName>() {
        return read_at_desk(name, fields);
    }
    match word {
        "sheet" => read_sheet(fields),
        "xf" => Ok(Command::AddXf {
            kind: kind_of(fields.word()?)?,
        }),
        "agree" => Ok(Command::Agree),
        _ => Err(Misread::UnknownWord),
    }
}

/// Reads a line.
impl FromStr for Command {
    type Err = Misread;

    fn from_str(line: &str) -> Result<Command, Misread> {
        let mut fields = Fields {
            words: line.split_whitespace(),
        };
        let command = read_command(&mut fields)?;
        fields.end()?;
        Ok(command)
    }
}
