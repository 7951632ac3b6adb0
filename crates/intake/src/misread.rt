//! Why a line is not understood.
use formats::UnknownKind;
use thiserror::Error;

/// What is wrong with a line, or what stands in its way.
#[derive(Clone, Copy, Debug, Error, PartialEq, Eq)]
pub enum Misread {
    #[error("the line is no UTF-8 text")]
    NotText,
    #[error("a line begins with sheet, xf, agree or the name of a sheet")]
    UnknownWord,
    #[error("a sheet is named loader or floor")]
    UnknownName,
    #[error("{0}")]
    UnknownKind(UnknownKind),
    #[error("a sheet is asked to put, clear, pack, get, kind, runs or walk")]
    UnknownCall,
    #[error("a field is missing")]
    MissingField,
    #[error("there is a field too many")]
    ExtraField,
    #[error("a number is written in digits alone")]
    NotANumber,
    #[error("a number is past 32 bits")]
    PastThirtyTwoBits,
    #[error("there is no such sheet yet")]
    NoSheet,
    #[error("both sheets have to be there to agree")]
    NotBothSheets,
    #[error("there is a sheet of that name already")]
    SecondSheet,
    #[error("an xf comes before the first put, clear or pack")]
    LateXf,
    #[error("no memory for the sheet")]
    NoMemoryForSheet,
    #[error("no memory for the xf")]
    NoMemoryForXf,
    #[error("no memory for the call")]
    NoMemoryForCall,
    #[error("no memory for the sheets to compare")]
    NoMemoryForAgree,
}
