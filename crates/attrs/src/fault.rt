//! What can be wrong with attribute text.
ghost use Rattle.std.specs.Prelude.{◌≡◌, Some};
ghost use Rattle.attrs.specs.Refusals.{flaw_number, flaw_words, fault_text};

use std::error::Error;
use std::fmt;

/// What is wrong with an item.
#[derive(Clone, Copy, Debug, PartialEq, Eq)]
pub enum Flaw {
    /// It does not begin with a key and an `=`.
    BadKey,
    /// Neither white space nor the end follows its value.
    NoSpace,
    /// No quote follows its `=`.
    NoQuote,
    /// Its value is not closed.
    NotClosed,
    /// Its key stands in an earlier item.
    Repeated,
}

/// The first fault of attribute text: what is wrong, and the place in the text where the faulty item
/// begins.
#[derive(Clone, Copy, Debug, PartialEq, Eq)]
pub struct Fault {
    pub flaw: Flaw,
    pub place: usize,
}

impl Flaw {
    /// The number of the refusal, by which the project's rules name it.
    pub fn number(&self) -> u32
        ensures { result ≡ flaw_number self.now }
    {
        match *self {
            Flaw::BadKey | Flaw::NoSpace => 4,
            Flaw::NoQuote => 5,
            Flaw::NotClosed => 6,
            Flaw::Repeated => 7,
        }
    }

    /// What is wrong, in words.
    pub fn words(&self) -> &'static str
        ensures { result.now ≡ flaw_words self.now }
    {
        match *self {
            Flaw::BadKey => "no key with = after it",
            Flaw::NoSpace => "no white space after the value",
            Flaw::NoQuote => "no quote after =",
            Flaw::NotClosed => "the value is not closed",
            Flaw::Repeated => "the key stands in an earlier item",
        }
    }
}

// By hand, since a derive (thiserror) would promise nothing of what is printed.
impl fmt::Display for Fault {
    ghost output = { λ x. Some (fault_text x) };

    fn fmt<W: fmt::Write>(&self, f: &mut fmt::Formatter<W>) -> fmt::Result {
        let number = self.flaw.number();
        let place = self.place;
        let words = self.flaw.words();
        write!(f, "refused {number} at byte {place} ({words})")
    }
}

impl Error for Fault {}
