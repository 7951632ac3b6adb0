//! The calls that change a sheet, and their answers.
ghost use Rattle.std.specs.Prelude.{Some};
ghost use Rattle.replicas.specs.Answers.{answer_text};

use sheet::{ClearRefusal, PackRefusal, Put, PutRefusal, RunCounts};
use std::fmt;

/// A put, a clear or a pack, with its arguments.
// A row and a column, and no `Position`, since they are as the caller gave them, on the sheet or off it.
#[derive(Clone, Copy)]
pub enum Call {
    Put { row: u32, column: u32, id: u32 },
    Clear { row: u32, column: u32 },
    Pack,
}

/// What a call answered.
#[derive(Clone, Copy)]
pub enum Answer {
    Put(Result<Put, PutRefusal>),
    Clear(Result<bool, ClearRefusal>),
    Pack(Result<RunCounts, PackRefusal>),
}

impl fmt::Display for Answer {
    ghost output = { λ x. Some (answer_text x) };

    fn fmt<W: fmt::Write>(&self, f: &mut fmt::Formatter<W>) -> fmt::Result {
        match *self {
            Answer::Put(Ok(Put::Kept)) => f.write_str("kept"),
            Answer::Put(Ok(Put::Ignored)) => f.write_str("ignored"),
            Answer::Put(Err(refusal)) => write!(f, "{refusal}"),
            Answer::Clear(Ok(stood)) => f.write_str(if stood { "cleared" } else { "empty" }),
            Answer::Clear(Err(refusal)) => write!(f, "{refusal}"),
            Answer::Pack(Ok(RunCounts { ids, kinds })) => write!(f, "packed {ids} {kinds}"),
            Answer::Pack(Err(refusal)) => write!(f, "{refusal}"),
        }
    }
}
