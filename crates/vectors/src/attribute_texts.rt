//! Attribute texts.
ghost use Rattle.std.specs.Prelude.{◌≡◌, ℕ, ◌+◌, ◌<◌, ◌≤◌, ◌⊎◌, List, length, true, Some, IfOk, Decides, string_bytes};
ghost use Rattle.std.specs.Str.{IsTrimAscii};
ghost use Rattle.attrs.specs.Grammar.{Attribute, WellFormed};
ghost use Rattle.attrs.specs.Flaws.{FirstFault};
ghost use Rattle.attrs.specs.Refusals.{fault_text};
ghost use Rattle.attrs.specs.declared.fault.Flaw.{Flaw};
ghost use Rattle.vectors.specs.declared.given.Kind.TheVariants.{Read, ReadWithFormFeed, Flawed, Unsound};
ghost use Rattle.attrs.specs.Items.{attribute_of, left, Found};
ghost use Rattle.vectors.specs.Places.{Stands, Placed};

use crate::field::Part;
use crate::given::{Given, Kind};
use crate::surroundings::Surrounded;
use attrs::{Attributes, Fault, Item};
use std::alloc::{AllocError, Global};

/// Whether a part stands in a text at a place.
fn stands_at(text: &[u8], place: usize, part: &[u8]) -> bool
    ensures { Decides result ((place ≤ length text.now) × Stands text.now place part.now) }
{
    // tested first: with `get` and a closure, which was tried, the proof did not close
    place <= text.len() && text[place..].starts_with(part)
}

/// Whether the key and the value stand where the item says.
fn is_placed(text: &[u8], item: &Item<'_>) -> bool
    ensures placed { result ≡ true → Placed text.now (attribute_of item.now) }
    ensures all { item.now.key_place ≤ length text.now → item.now.value_place ≤ length text.now → Placed text.now (attribute_of item.now) → result ≡ true }
{
    stands_at(text, item.key_place, item.key) && stands_at(text, item.value_place, item.value)
}

/// Whether look-up of the item's key finds the item.
fn is_found(attributes: &Attributes<'_>, item: &Item<'_>) -> bool
    ensures { result ≡ true → Found attributes.now.place (left attributes.now) item.now.key.now (Some item.now) }
{
    attributes.find(item.key) == Some(*item)
}

/// Whether a key has a form feed at an end. It has no other white space.
fn has_form_feed(key: &[u8]) -> bool
    ensures { (trimmed : List ℕ) × IsTrimAscii key.now trimmed × Decides result (length trimmed < length key.now) }
{
    key.trim_ascii().len() < key.len()
}

/// Adds an item to the words, its key without the form feeds at its ends.
fn add_words(words: &mut String, heap: Global, item: &Item<'_>) -> Result<(), AllocError> {
    if !words.is_empty() {
        words.push('|')?;
    }
    let key = Part(item.key.trim_ascii());
    let value = Part(item.value);
    words.push_str(format!(in heap; "{key}={value}")?.as_str())
}

/// What is said of attribute text that the check accepts.
fn accepted(heap: Global, text: &Surrounded<'_>) -> Result<Given, AllocError>
    ensures { IfOk result (λ given. (given.kind ≡ Read) ⊎ ((given.kind ≡ ReadWithFormFeed) ⊎ (given.kind ≡ Unsound))) }
{
    let mut words = String::new(heap);
    let mut form_feed = false;
    let mut sound = true;
    let attributes = text.attributes();
    let mut rest = attributes;
    while let Ok(Some(item)) = rest.next() {
        form_feed = form_feed || has_form_feed(item.key);
        sound = sound && is_placed(text.larger(), &item) && is_found(&attributes, &item);
        add_words(&mut words, heap, &item)?;
    }
    if words.is_empty() {
        words.push_str("none")?;
    }
    let kind = if form_feed {
        Kind::ReadWithFormFeed
    } else {
        Kind::Read
    };
    Ok(Given {
        kind: kind.provided(sound),
        words,
    })
}

/// What is said of attribute text that the check refuses: a refusal has a number from 4 to 7, and is of
/// a place in the text.
fn refused(heap: Global, text: &Surrounded<'_>, fault: Fault) -> Result<Given, AllocError>
    ensures kind { IfOk result (λ given. (given.kind ≡ Flawed fault.flaw) ⊎ (given.kind ≡ Unsound)) }
    ensures within { IfOk result (λ given. 3 ≤ fault.place → fault.place < 3 + length text.now.text.now → given.kind ≡ Flawed fault.flaw) }
    ensures words { IfOk result (λ given. string_bytes given.words ≡ fault_text fault) }
{
    let sound = matches!(fault.flaw.number(), 4..=7) && text.has_place(fault.place);
    Ok(Given {
        kind: Kind::Flawed(fault.flaw).provided(sound),
        words: fault.to_string(heap)?,
    })
}

/// What `attrs` answers to an attribute text, which stands inside of a larger text.
pub fn answered(heap: Global, text: &[u8]) -> Result<Given, AllocError>
    ensures read { IfOk result (λ given. (given.kind ≡ Read) ⊎ (given.kind ≡ ReadWithFormFeed) → (items : List Attribute) × WellFormed 3 text.now items) }
    ensures flawed { IfOk result (λ given. (flaw : Flaw) → given.kind ≡ Flawed flaw → (place : ℕ) × FirstFault 3 text.now (record { flaw = flaw; place = place })) }
{
    let text = Surrounded::new(heap, text)?;
    match text.attributes().check() {
        Ok(()) => accepted(heap, &text),
        Err(fault) => refused(heap, &text, fault),
    }
}
