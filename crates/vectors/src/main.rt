//! Runs recorded vectors, from standard input, through the crates, and says on standard output how many
//! agree.
//!
//! A line is a word for the family, one or more texts, and the answer that each of the texts has:
//!
//!     items TEXT.. ANSWER         what calamine and our rules make of an attribute text: the items, or
//!                                 none; |N|ITEMS where our rules refuse it with the number N;
//!                                 error|N where calamine gives an error too
//!     decimal TEXT.. ANSWER       the bits of a binary64, or none
//!     whole BITS TEXT.. ANSWER    a whole number of 8, 16, 32 or 64 bits, or none
//!     decode TEXT.. ANSWER        the decoded text, = where that is the text itself, or refused
#![tactic(auto)]

ghost use Rattle.std.specs.Prelude.{◌≡◌, OnOk};
ghost use Rattle.vectors.specs.Counts.{NoneDiffers, with_misread};
ghost use Rattle.vectors.specs.Compared.{Compared};

mod attribute_texts;
mod decimals;
mod field;
mod given;
mod line;
mod outcome;
mod reference_texts;
mod surroundings;
mod tallies;
mod wholes;

use field::decoded;
use given::Given;
use line::{Family, Line};
use outcome::{Outcome, judged};
use std::alloc::{AllocError, Global};
use std::io::{BufRead, BufReader};
use std::{fmt, io};
use tallies::Tallies;

/// At most so many disagreements are shown.
const SHOWN: u64 = 20;

/// What our crates answer to a text of the family.
// The heap is a parameter and no field: what allocates is passed its allocator, as in std.
fn answered(heap: Global, family: Family, text: &[u8]) -> Result<Given, AllocError> {
    match family {
        Family::Items => attribute_texts::answered(heap, text),
        Family::Decimal => decimals::answered(heap, text),
        Family::Whole(width) => wholes::answered(heap, width, text),
        Family::Decode => reference_texts::answered(heap, text),
    }
}

/// The comparison so far, and where disagreements are shown.
#[derive(Drop)]
struct Comparison<'r> {
    rt: &'r HostRuntime,
    tallies: Tallies,
}

impl Comparison<'_> {
    /// Shows a disagreement, if few enough were shown already.
    fn show<D: fmt::Display + Drop>(&self, disagreement: D) -> io::Result<()> {
        if self.tallies.disagreed() <= SHOWN {
            self.rt.println(disagreement)?;
        }
        Ok(())
    }

    /// Notes, and shows, what is no line or no text.
    fn misread(&mut self, part: &str) -> io::Result<()>
        ensures noted { self.new.tallies ≡ with_misread self.old.tallies }
        ensures counted { NoneDiffers self.new.tallies → ⊥ }
    {
        self.tallies.note_misread();
        self.show(format_args!("not understood: {part}"))
    }

    /// Compares one text of a line.
    fn text(&mut self, line: &Line<'_>, field: &str) -> io::Result<()>
        ensures compared { OnOk result (Compared line.now field.now self.old.tallies self.new.tallies) }
        ensures stays { NoneDiffers self.new.tallies → NoneDiffers self.old.tallies }
    {
        let heap = self.rt.alloc();
        let Some(text) = decoded(heap, field)? else {
            return self.misread(field);
        };
        let given = answered(heap, line.family, text.as_slice())?;
        let outcome = judged(heap, line.answer, &given)?;
        self.tallies.note(line.family, outcome);
        if outcome == Outcome::Differs {
            let family = line.family;
            let expected = line.answer;
            let came = given.words.as_str();
            let remark = given.remark();
            self.show(format_args!("{family} {field}: expected {expected}, came {came}{remark}"))?;
        }
        Ok(())
    }

    /// Compares the texts of a line.
    fn line(&mut self, bytes: &[u8]) -> io::Result<()>
        ensures { NoneDiffers self.new.tallies → NoneDiffers self.old.tallies }
    {
        let Ok(text) = std::str::from_utf8(bytes) else {
            return self.misread("a line that is no UTF-8");
        };
        let Some(line) = Line::read(text) else {
            return self.misread(text);
        };
        for field in line.texts.split(' ') {
            self.text(&line, field)?;
        }
        Ok(())
    }
}

/// Compares every line of the input, and says what came of it.
fn main(rt: HostRuntime) -> io::Result<()> {
    let mut comparison = Comparison {
        rt: &rt,
        tallies: Tallies::default(),
    };
    for line in BufReader::new(rt.alloc(), rt.stdin())?.split(rt.alloc(), b'\n') {
        let line = line?;
        comparison.line(line.as_slice())?;
    }
    rt.println(comparison.tallies)
}
