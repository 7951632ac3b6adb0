//! Whether an answer is as expected.
ghost use Rattle.std.specs.Prelude.{IfOk};
ghost use Rattle.vectors.specs.Outcomes.{Justified, JustifiedRefusal};

use crate::given::{Given, Kind};
use attrs::Flaw;
use std::alloc::{AllocError, Global};

/// How the answer to a text compares with what the vector file has.
#[derive(Clone, Copy, PartialEq, Eq)]
pub enum Outcome {
    /// Both read the same.
    Same,
    /// Both read the same items, but for form feeds at the ends of keys, which are white space to
    /// calamine alone.
    SameButFormFeeds,
    /// Both refuse.
    BothRefuse,
    /// calamine gives items, and our check refuses for that, as expected: calamine tests neither keys
    /// nor closing quotes, nor what follows a value, nor repeated keys, and takes a form feed for white
    /// space.
    Departs(Flaw),
    /// None of these.
    Differs,
}

/// How the refusal of an attribute text compares with the expected answer.
fn judged_refusal(heap: Global, expected: &str, flaw: Flaw) -> Result<Outcome, AllocError>
    ensures { IfOk result (λ outcome. JustifiedRefusal flaw expected.now outcome) }
{
    let number = flaw.number();
    let with_error = format!(in heap; "error|{number}")?;
    if with_error.as_str() == expected {
        return Ok(Outcome::BothRefuse);
    }
    let with_items = format!(in heap; "|{number}|")?;
    if expected.as_bytes().starts_with(with_items.as_bytes()) {
        return Ok(Outcome::Departs(flaw));
    }
    Ok(Outcome::Differs)
}

/// How an answer compares with the expected one.
pub fn judged(heap: Global, expected: &str, given: &Given) -> Result<Outcome, AllocError>
    ensures { IfOk result (λ outcome. Justified given.now expected.now outcome) }
{
    let same = given.words.as_str() == expected;
    match given.kind {
        Kind::Read if same => Ok(Outcome::Same),
        Kind::ReadWithFormFeed if same => Ok(Outcome::SameButFormFeeds),
        Kind::Refused if same => Ok(Outcome::BothRefuse),
        Kind::Flawed(flaw) => judged_refusal(heap, expected, flaw),
        _ => Ok(Outcome::Differs),
    }
}
