//! A walk over the marks of all places in turn, in constant time a step.
ghost use Rattle.std.specs.Prelude.{◌≡◌, ℕ, ◌^◌, ◌+◌, ◌-◌, ◌<◌, ◌≤◌, length, is_some, if◌then◌else◌, slice_index};
ghost use Rattle.std.specs.Iterator.{at_most};
ghost use Rattle.runs.specs.Runs.{mark_at};
ghost use Rattle.runs.specs.Memory.{Rises, FirstAboveZero, ends_of, last_end};

use crate::mark::Mark;
use crate::table::RunTable;

/// The next place of a walk, and the run that holds it.
#[derive(Drop)]
pub struct RunWalk<'m, M> {
    table: RunTable<'m, M>,
    run: usize,
    place: u64,
    ghost few: { length table < 2 ^ 64 },
    ghost rising: { Rises (ends_of table) },
    ghost first: { FirstAboveZero (ends_of table) },
    ghost before: { (k : ℕ) → k < run → slice_index (ends_of table) k ≤ place },
    ghost within: { run < length table → place < slice_index (ends_of table) run },
}

impl<'m, M: Mark> RunWalk<'m, M> {
    /// A walk from the first place on.
    pub fn new(table: RunTable<'m, M>) -> Self
        ensures table { result.table ≡ table.entry }
        ensures place { result.place ≡ 0 }
    {
        // says that the ends rise from above 0: a model shows its invariant to its own methods alone
        let _ = table.count();
        RunWalk {
            table,
            run: 0,
            place: 0,
        }
    }
}

/// A step gives the mark of the next place, or none past the last run, and leaves the table.
impl<'m, M: Mark> Iterator for RunWalk<'m, M> {
    type Item = M;

    ghost next_gives = { λ w r w'. (r ≡ mark_at w.table w.place) × (w'.place ≡ (if is_some r then w.place + 1 else w.place)) × (w'.table ≡ w.table) };

    ghost remaining = { λ w. at_most (last_end w.table - w.place) };

    fn next(&mut self) -> Option<M> {
        let run = self.table.run(self.run)?;
        let place = self.place + 1;
        if run.end <= place {
            self.run += 1;
        }
        self.place = place;
        Some(run.mark)
    }
}
