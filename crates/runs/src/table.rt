//! A list of runs, lent for reading, with look-up by binary search.
ghost use Rattle.std.specs.Prelude.{◌≡◌, ℕ, ◌<◌, ◌≤◌, List, length, map, Decides};
ghost use Rattle.std.specs.List.{slice_get};
ghost use Rattle.runs.specs.declared.run.Run.{Run};
ghost use Rattle.runs.specs.Runs.{mark_at};
ghost use Rattle.runs.specs.Going.{rest};
ghost use Rattle.runs.specs.Memory.{Ascending, IsTable, runs_of};

use crate::mark::Mark;
use crate::run::Run;
use crate::runs::Runs;
use std::marker::Model;

/// Runs whose ends rise from above 0: a mark and an end each, in memory that is lent. Marks and ends lie
/// apart, since a pack writes them over memory of two lengths.
#[derive(Drop)]
pub struct RunTable<'m, M> {
    marks: &'m [M],
    ends: &'m [u64],
}

/// A clause sees the list of the runs.
impl<'m, M> Model for RunTable<'m, M> {
    ghost Value = { List (Run M) };

    ghost view = { λ t. runs_of t.marks.now t.ends.now };

    ghost invariant = { λ t. IsTable t.marks.now t.ends.now };
}

/// Whether two runs, or their absences, are the same.
fn same_run<M: Mark>(one: Option<Run<M>>, other: Option<Run<M>>) -> bool
    ensures { Decides result (one ≡ other) }
{
    match (one, other) {
        (Some(a), Some(b)) => a.end == b.end && a.mark.same(&b.mark),
        (None, None) => true,
        _ => false,
    }
}

impl<'m, M: Mark> RunTable<'m, M> {
    /// The table over marks and ends that are as many, where the ends rise from above 0.
    pub(crate) fn over(marks: &'m [M], ends: &'m [u64]) -> Self
        requires { IsTable marks.now ends.now }
        ensures runs { result ≡ runs_of marks.now ends.now }
        ensures ascending { Ascending result }
    {
        RunTable { marks, ends }
    }

    /// How many runs there are. Their ends rise from above 0.
    pub fn count(&self) -> usize
        ensures value { result ≡ length self.now }
        ensures ascending { Ascending self.now }
    {
        self.ends.len()
    }

    /// The mark of the run that holds a place, or none past the last run.
    pub fn look_up(&self, place: u64) -> Option<M>
        ensures { result ≡ mark_at self.now place }
    {
        let index = self.ends.partition_point(|end| *end <= place);
        self.run(index).map(|run| run.mark)
    }

    /// The run of an index, or none past the last.
    pub fn run(&self, index: usize) -> Option<Run<M>>
        ensures { result ≡ slice_get self.now index }
    {
        let mark = *self.marks.get(index)?;
        // there are as many ends as marks
        let end = self.ends[index];
        Some(Run { mark, end })
    }

    /// The runs, in order.
    pub fn iter(&self) -> Runs<'m, M>
        ensures { rest result ≡ self.now }
    {
        Runs {
            marks: self.marks.iter(),
            ends: self.ends.iter(),
        }
    }

    /// Whether two tables hold the same runs. It reads no further than the first run that differs.
    pub fn same(&self, other: &RunTable<'_, M>) -> bool
        ensures { Decides result (self.now ≡ other.now) }
    {
        self.count() == other.count()
            && (0..self.count()).all(|index| same_run(self.run(index), other.run(index)))
    }
}
