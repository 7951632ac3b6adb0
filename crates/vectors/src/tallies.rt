//! How many vectors there were, and what came of them.
ghost use Rattle.std.specs.Prelude.{◌≡◌, ◌+◌, ◌<◌, ◌≤◌, ◌≢◌, sum};
ghost use Rattle.vectors.specs.Counts.{capped, more, departed, agreed, agreed_in_all, disagreed, with_flaw, with_outcome, with_text, with_misread, Kept, NoneDiffers};

use crate::line::Family;
use crate::outcome::Outcome;
use attrs::Flaw;
use std::fmt;

/// How often our check refuses where calamine gives items, by what the refusal is for.
#[derive(Clone, Copy, Default)]
struct Departures {
    bad_items: u64,
    no_quote: u64,
    not_closed: u64,
    repeated: u64,
}

/// The outcomes of a family.
#[derive(Clone, Copy, Default)]
struct Tally {
    same: u64,
    same_but_form_feeds: u64,
    both_refuse: u64,
    departures: Departures,
    differs: u64,
}

/// The outcomes of all families, and how many lines or texts were not understood.
// Fields, and no map by family: each is printed in its own place, and all widths count as one.
#[derive(Clone, Copy, Default)]
pub struct Tallies {
    items: Tally,
    decimals: Tally,
    wholes: Tally,
    references: Tally,
    misread: u64,
}

/// Counts one more.
fn count(counter: &mut u64)
    ensures more { counter.new ≡ more counter.old }
    ensures rises { (0 < counter.new) × (counter.old ≤ counter.new) }
{
    *counter = counter.saturating_add(1);
}

/// What counters come to together.
// A loop: with `fold`, which was tried, the proof did not close.
fn total(counters: &[u64]) -> u64
    ensures { result ≡ capped (sum counters.now) }
{
    let mut sum = 0u64;
    for counter in counters {
        sum = sum.saturating_add(*counter);
    }
    sum
}

impl Departures {
    /// Counts a refusal.
    fn note(&mut self, flaw: Flaw)
        ensures { self.new ≡ with_flaw self.old flaw }
    {
        match flaw {
            Flaw::BadKey | Flaw::NoSpace => count(&mut self.bad_items),
            Flaw::NoQuote => count(&mut self.no_quote),
            Flaw::NotClosed => count(&mut self.not_closed),
            Flaw::Repeated => count(&mut self.repeated),
        }
    }

    /// How many there are.
    fn all(&self) -> u64
        ensures { result ≡ capped (departed self.now) }
    {
        total(&[
            self.bad_items,
            self.no_quote,
            self.not_closed,
            self.repeated,
        ])
    }
}

impl Tally {
    /// Counts an outcome.
    fn note(&mut self, outcome: Outcome)
        ensures counted { self.new ≡ with_outcome self.old outcome }
        ensures kept { Kept self.old outcome self.new }
    {
        match outcome {
            Outcome::Same => count(&mut self.same),
            Outcome::SameButFormFeeds => count(&mut self.same_but_form_feeds),
            Outcome::BothRefuse => count(&mut self.both_refuse),
            Outcome::Departs(flaw) => self.departures.note(flaw),
            Outcome::Differs => count(&mut self.differs),
        }
    }

    /// How many are as expected.
    fn agreed(&self) -> u64
        ensures { result ≡ capped (agreed self.now) }
    {
        total(&[
            self.same,
            self.same_but_form_feeds,
            self.both_refuse,
            self.departures.all(),
        ])
    }

    /// How many there are.
    fn compared(&self) -> u64
        ensures { result ≡ capped (agreed self.now + self.now.differs) }
    {
        total(&[self.agreed(), self.differs])
    }
}

impl Tallies {
    /// Counts an outcome.
    pub fn note(&mut self, family: Family, outcome: Outcome)
        ensures noted { self.new ≡ with_text self.old family outcome }
        ensures counted { NoneDiffers self.new → outcome ≢ Outcome.Differs }
        ensures stays { NoneDiffers self.new → NoneDiffers self.old }
    {
        match family {
            Family::Items => self.items.note(outcome),
            Family::Decimal => self.decimals.note(outcome),
            Family::Whole(_) => self.wholes.note(outcome),
            Family::Decode => self.references.note(outcome),
        }
    }

    /// Counts what was not understood.
    pub fn note_misread(&mut self)
        ensures noted { self.new ≡ with_misread self.old }
        ensures counted { NoneDiffers self.new → ⊥ }
    {
        count(&mut self.misread);
    }

    /// How many are not as expected.
    pub fn disagreed(&self) -> u64
        ensures total { result ≡ capped (disagreed self.now) }
        ensures none { result ≡ 0 → NoneDiffers self.now }
    {
        total(&[
            self.items.differs,
            self.decimals.differs,
            self.wholes.differs,
            self.references.differs,
            self.misread,
        ])
    }

    /// How many there are.
    fn compared(&self) -> u64
        ensures { result ≡ capped (agreed_in_all self.now + disagreed self.now) }
    {
        total(&[
            self.items.compared(),
            self.decimals.compared(),
            self.wholes.compared(),
            self.references.compared(),
            self.misread,
        ])
    }
}

impl fmt::Display for Departures {
    fn fmt<W: fmt::Write>(&self, f: &mut fmt::Formatter<W>) -> fmt::Result {
        let Departures {
            bad_items,
            no_quote,
            not_closed,
            repeated,
        } = *self;
        write!(
            f,
            "refused 4: {bad_items}, 5: {no_quote}, 6: {not_closed}, 7: {repeated}"
        )
    }
}

impl fmt::Display for Tally {
    fn fmt<W: fmt::Write>(&self, f: &mut fmt::Formatter<W>) -> fmt::Result {
        let compared = self.compared();
        let agreed = self.agreed();
        let same = self.same;
        let both_refuse = self.both_refuse;
        write!(
            f,
            "{compared} compared, {agreed} as expected ({same} read alike, {both_refuse} refused by both"
        )
    }
}

impl fmt::Display for Tallies {
    fn fmt<W: fmt::Write>(&self, f: &mut fmt::Formatter<W>) -> fmt::Result {
        let items = self.items;
        let departures = self.items.departures;
        let form_feeds = self.items.same_but_form_feeds;
        writeln!(
            f,
            "attribute texts: {items}, {form_feeds} read alike but for form feeds at the ends of keys; where calamine gives items, {departures})"
        )?;
        let decimals = self.decimals;
        writeln!(f, "decimals: {decimals})")?;
        let wholes = self.wholes;
        writeln!(f, "whole numbers: {wholes})")?;
        let references = self.references;
        writeln!(f, "references: {references})")?;
        let compared = self.compared();
        match self.disagreed() {
            0 => write!(f, "all {compared} agreed"),
            disagreed => write!(f, "{disagreed} of {compared} DISAGREED"),
        }
    }
}
