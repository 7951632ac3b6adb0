//! How decoding refuses.
ghost use Rattle.std.specs.Prelude.{◌≡◌, Some};
ghost use Rattle.references.specs.declared.refusals.DecodeRefusal.TheVariants as refusals;
ghost use Rattle.references.specs.Answers.{malformed_number, malformed_text, decode_number, decode_text};

use std::error::Error;
use std::fmt;

/// The raw text is not UTF-8, or has an `&` that begins no reference to an allowed character.
#[derive(Clone, Copy, Debug, PartialEq, Eq)]
pub struct Malformed;

/// Why decoding a part was refused.
#[derive(Clone, Copy, Debug, PartialEq, Eq)]
pub enum DecodeRefusal {
    /// The part does not lie within the text, or it is malformed.
    Malformed,
    /// The buffer has fewer bytes than the decoded part.
    TooShort { needed: usize },
}

// The refusals have numbers, for the project's rules name each by its number.
impl Malformed {
    /// The number of the refusal.
    pub fn number(&self) -> u32
        ensures { result ≡ malformed_number self.now }
    {
        8
    }
}

impl DecodeRefusal {
    /// The number of the refusal.
    pub fn number(&self) -> u32
        ensures { result ≡ decode_number self.now }
    {
        match *self {
            DecodeRefusal::Malformed => 8,
            DecodeRefusal::TooShort { .. } => 14,
        }
    }
}

impl From<Malformed> for DecodeRefusal {
    ghost from_gives = { λ _ refusal. refusal ≡ refusals.Malformed };

    fn from(_: Malformed) -> Self {
        Self::Malformed
    }
}

// Each `Display` is by hand, since a derive (thiserror) would promise nothing of what is printed. The numbers stand in the
// texts, so that a refusal without a count is written in one piece: a writer with no room for it has then written nothing of it.
impl fmt::Display for Malformed {
    ghost output = { λ x. Some (malformed_text x) };

    fn fmt<W: fmt::Write>(&self, f: &mut fmt::Formatter<W>) -> fmt::Result {
        f.write_str("refused 8 (not UTF-8, or an & that begins no reference)")
    }
}

impl fmt::Display for DecodeRefusal {
    ghost output = { λ x. Some (decode_text x) };

    fn fmt<W: fmt::Write>(&self, f: &mut fmt::Formatter<W>) -> fmt::Result {
        match *self {
            DecodeRefusal::Malformed => f.write_str(
                "refused 8 (outside the text, not UTF-8, or an & that begins no reference)",
            ),
            DecodeRefusal::TooShort { needed } => {
                write!(f, "refused 14 {needed} (so many bytes are needed)")
            }
        }
    }
}

impl Error for Malformed {}

impl Error for DecodeRefusal {}
