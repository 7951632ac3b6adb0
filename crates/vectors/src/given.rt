//! What our crates answer to a text.
ghost use Rattle.std.specs.Prelude.{◌≡◌, if◌then◌else◌, IfOk};
ghost use Rattle.vectors.specs.Answers.{Says, remark};
ghost use Rattle.vectors.specs.declared.given.Kind.TheVariants.{Unsound};

use attrs::Flaw;
use std::alloc::{AllocError, Global};
use std::fmt;

/// A kind of answer.
#[derive(Clone, Copy)]
pub enum Kind {
    /// The text was read.
    Read,
    /// The items of an attribute text were read, and a key has a form feed at an end, which is left out
    /// of the words.
    ReadWithFormFeed,
    /// The text was refused.
    Refused,
    /// The attribute text was refused for that.
    Flawed(Flaw),
    /// Something that was tried beside it was wrong, so that no answer is as expected.
    Unsound,
}

/// What our crates answer to a text: what kind of answer it is, and the words that the vector file
/// would have for it.
#[derive(Drop)]
pub struct Given {
    pub kind: Kind,
    pub words: String,
}

impl Kind {
    /// This kind, where all that was tried beside the answer was right.
    pub fn provided(self, sound: bool) -> Kind
        ensures { result ≡ (if sound then self else Unsound) }
    {
        if sound { self } else { Kind::Unsound }
    }
}

impl Given {
    /// The value that a text was read as, or that it has none.
    pub fn value<T: fmt::Display + Drop>(
        heap: Global,
        value: Option<T>,
    ) -> Result<Given, AllocError>
        ensures { IfOk result (λ given. Says T.output value given) }
    {
        Ok(match value {
            Some(value) => Given {
                kind: Kind::Read,
                words: value.to_string(heap)?,
            },
            None => Given {
                kind: Kind::Refused,
                words: String::from_str(heap, "none")?,
            },
        })
    }

    /// What is to say beside the words.
    pub fn remark(&self) -> &'static str
        ensures { result.now ≡ remark self.now.kind }
    {
        match self.kind {
            Kind::Unsound => ", with a wrong place, look-up, number or buffer",
            _ => "",
        }
    }
}
