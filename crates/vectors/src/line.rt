//! A line of the vector file.
ghost use Rattle.std.specs.Prelude.{◌≡◌, ◌∷◌, ◌++◌, Some, IfSome, codes};
ghost use Rattle.vectors.specs.Widths.{WidthOf, width_word};
ghost use Rattle.vectors.specs.Lines.{family_words};

use std::fmt;
use std::str::FromStr;

/// How many bits a whole number has.
#[derive(Clone, Copy, PartialEq, Eq)]
pub enum Width {
    Bits8,
    Bits16,
    Bits32,
    Bits64,
}

/// A word that says no width.
#[derive(Clone, Copy, PartialEq, Eq)]
pub struct NoWidth;

/// What is asked of the texts of a line.
#[derive(Clone, Copy, PartialEq, Eq)]
pub enum Family {
    /// The items of an attribute text.
    Items,
    /// A decimal.
    Decimal,
    /// A whole number.
    Whole(Width),
    /// A text with references.
    Decode,
}

/// A line: what is asked, the texts with a space between each two, and the answer that all of them have.
#[derive(Clone, Copy)]
pub struct Line<'l> {
    pub family: Family,
    pub texts: &'l str,
    pub answer: &'l str,
}

impl FromStr for Width {
    type Err = NoWidth;

    ghost from_str_gives = { WidthOf };

    fn from_str(word: &str) -> Result<Width, NoWidth> {
        match word {
            "8" => Ok(Width::Bits8),
            "16" => Ok(Width::Bits16),
            "32" => Ok(Width::Bits32),
            "64" => Ok(Width::Bits64),
            _ => Err(NoWidth),
        }
    }
}

/// The family that a line begins with, and the texts after it.
// No `FromStr`: the texts follow the family, of which they are no part.
fn family_of(front: &str) -> Option<(Family, &str)>
    ensures { IfSome result (λ p. front.now ≡ family_words p.0 ++ 32 ∷ p.1.now) }
{
    let (word, rest) = front.split_once(' ')?;
    match word {
        "items" => Some((Family::Items, rest)),
        "decimal" => Some((Family::Decimal, rest)),
        "decode" => Some((Family::Decode, rest)),
        "whole" => {
            let (bits, texts) = rest.split_once(' ')?;
            Some((Family::Whole(bits.parse().ok()?), texts))
        }
        _ => None,
    }
}

impl<'l> Line<'l> {
    /// The parts of a line; none where it has another form.
    // No `TryFrom`: there is nothing to say of a line of another form but that it is one.
    pub fn read(line: &'l str) -> Option<Line<'l>>
        ensures { IfSome result (λ parts. line.now ≡ family_words parts.family ++ 32 ∷ (parts.texts.now ++ 32 ∷ parts.answer.now)) }
    {
        let (front, answer) = line.rsplit_once(' ')?;
        let (family, texts) = family_of(front)?;
        Some(Line {
            family,
            texts,
            answer,
        })
    }
}

impl fmt::Display for Width {
    ghost output = { λ width. Some (width_word width) };

    fn fmt<W: fmt::Write>(&self, f: &mut fmt::Formatter<W>) -> fmt::Result {
        f.write_str(match *self {
            Width::Bits8 => "8",
            Width::Bits16 => "16",
            Width::Bits32 => "32",
            Width::Bits64 => "64",
        })
    }
}

impl fmt::Display for Family {
    ghost output = { λ family. Some (family_words family) };

    fn fmt<W: fmt::Write>(&self, f: &mut fmt::Formatter<W>) -> fmt::Result {
        match *self {
            Family::Items => f.write_str("items"),
            Family::Decimal => f.write_str("decimal"),
            Family::Whole(width) => write!(f, "whole {width}"),
            Family::Decode => f.write_str("decode"),
        }
    }
}
