//! Attribute text, read item by item.
ghost use Rattle.std.specs.Prelude.{◌≡◌, ℕ, ◌+◌, ◌^◌, ◌<◌, ◌≤◌, List, length, take, drop, Decides};
ghost use Rattle.std.specs.Option as options;
ghost use Rattle.attrs.specs.Grammar.{Attribute, First, Front, Has, WellFormed};
ghost use Rattle.attrs.specs.Items.{left, attribute_of, Next, OneFirst, Found, LookUp, Checked, Unambiguous};

use crate::bytes::{is_white, run_end};
use crate::fault::{Fault, Flaw};
use crate::item::{Item, key_bounds, value_bounds};
use crate::seen::{key_number, note};

/// The attribute text of an element, or what is left of it: the text that it is a part of, up to
/// its end, and the place of its first byte.
// No `impl Model` with what is left as its value: a `Copy` struct with a lifetime can have none. No ghost
// field that the place lies inside: with it, which was tried, a check is slower by a tenth.
#[derive(Clone, Copy)]
pub struct Attributes<'t> {
    text: &'t [u8],
    place: usize,
}

impl<'t> Attributes<'t> {
    /// The part of the text at that place with so many bytes; none where it is not inside the text.
    pub fn part(text: &'t [u8], place: usize, count: usize) -> Option<Attributes<'t>>
        ensures { options.MatchOption result (length text.now < place + count) (λ a. (place + count ≤ length text.now) × (left a ≡ take count (drop place text.now)) × (a.place ≡ place)) }
    {
        let end = place.checked_add(count)?;
        Some(Attributes {
            text: text.get(..end)?,
            place,
        })
    }

    /// Takes the next item off the front; none at the end. A faulty item is refused, and stays.
    // No `Iterator`: a faulty item stays, so a `for` over the items would refuse it again for ever.
    #[tactic(auto, using(crate::proofs::Uniqueness::one_first))]
    pub fn next(&mut self) -> Result<Option<Item<'t>>, Fault>
        ensures text { self.new.text ≡ self.old.text }
        ensures next { Next self.old.place (left self.old) result self.new.place (left self.new) }
        ensures one { OneFirst self.old.place (left self.old) }
    {
        let text = self.text;
        if self.place >= text.len() {
            return Ok(None);
        }
        let place = run_end(text, self.place, is_white);
        if place == text.len() {
            return Ok(None);
        }
        let key = key_bounds(text, place).ok_or(Fault {
            flaw: Flaw::BadKey,
            place,
        })?;
        let value = value_bounds(text, key.equals + 1).map_err(|flaw| Fault { flaw, place })?;
        self.place = value.end + 1;
        Ok(Some(Item {
            key: &text[place..key.end],
            key_place: place,
            value_place: value.start,
            value: &text[value],
        }))
    }

    /// The first item with that key, prefix included, of those that can be read.
    pub fn find(&self, key: &[u8]) -> Option<Item<'t>>
        ensures found { Found self.now.place (left self.now) key.now result }
        ensures among { (items : List Attribute) → WellFormed self.now.place (left self.now) items → LookUp key.now items result }
    {
        let mut rest = *self;
        while let Ok(Some(item)) = rest.next() {
            if item.key == key {
                return Some(item);
            }
        }
        None
    }

    /// Checks all items: the first faulty one, in their order, is refused.
    #[tactic(auto, using(crate::proofs::Checking::unambiguous))]
    pub fn check(&self) -> Result<(), Fault>
        ensures checked { Checked self.now.place (left self.now) result }
        ensures unambiguous { Unambiguous self.now.place (left self.now) }
    {
        if self.text.len().saturating_sub(self.place) < LONG {
            check_with::<16>(self)
        } else {
            check_with::<32768>(self)
        }
    }
}

/// From so many bytes on, attribute text is checked with a filter for very many keys.
const LONG: usize = 2048;

/// Whether an item that stands in the text repeats the key of an earlier one.
fn repeats(attributes: &Attributes<'_>, item: &Item<'_>) -> bool
    ensures { (items : List Attribute) (end : ℕ) (rest : List ℕ) (next : List ℕ) → Front attributes.now.place (left attributes.now) items end rest → First end rest (attribute_of item.now) next → Decides result (Has item.now.key.now items) }
{
    matches!(attributes.find(item.key), Some(first) if first.key_place < item.key_place)
}

/// Checks all items, with a filter of keys of so many words.
fn check_with<const WORDS: usize>(attributes: &Attributes<'_>) -> Result<(), Fault>
    requires some { 0 < WORDS }
    requires few { WORDS < 2 ^ 32 }
    ensures { Checked attributes.now.place (left attributes.now) result }
{
    check_items(attributes, &mut [0; WORDS])
}

/// Checks all items, with memory for a filter of keys.
// The words are a slice, since a check is slower by a seventh with a copy of the loop for each size.
fn check_items(attributes: &Attributes<'_>, words: &mut [u64]) -> Result<(), Fault>
    requires { 0 < length words.old }
    ensures { Checked attributes.now.place (left attributes.now) result }
{
    let mut rest = *attributes;
    while let Some(item) = rest.next()? {
        if note(words, key_number(item.key)) && repeats(attributes, &item) {
            return Err(Fault {
                flaw: Flaw::Repeated,
                place: item.key_place,
            });
        }
    }
    Ok(())
}
