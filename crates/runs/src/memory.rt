//! Memory for a list of runs, of a length that its maker chose.
ghost use Rattle.std.specs.Prelude.{◌≡◌, ℕ, ◌<◌, ◌≤◌, min, length, take, vec_len};
ghost use Rattle.runs.specs.Memory.{Rises, FirstAboveZero, Ascending, Packed, runs_of};
ghost use Rattle.runs.specs.Marks.{mark_of};

use crate::mark::Mark;
use crate::marked::MarkedBox;
use crate::packing::pack;
use crate::table::RunTable;

/// Marks and ends side by side, of which the first `used` are a list of runs. The entries past them
/// are whatever the maker put there, and stay: so there is a count beside the two lists, whose lengths
/// may differ.
#[derive(Drop)]
pub struct RunMemory<M> {
    marks: Vec<M>,
    ends: Vec<u64>,
    used: usize,
    ghost marks_within: { used ≤ vec_len marks },
    ghost ends_within: { used ≤ vec_len ends },
    ghost rising: { Rises (take used ends.items) },
    ghost first: { FirstAboveZero (take used ends.items) },
}

impl<M: Mark> RunMemory<M> {
    /// The memory over these entries, with no runs yet.
    pub fn over(marks: Vec<M>, ends: Vec<u64>) -> Self
        ensures marks { result.marks ≡ marks }
        ensures ends { result.ends ≡ ends }
        ensures none { result.used ≡ 0 }
    {
        RunMemory {
            marks,
            ends,
            used: 0,
        }
    }

    /// How many runs there is room for: as many as the shorter of marks and ends has entries.
    pub fn room(&self) -> usize
        ensures { result ≡ min (vec_len self.now.marks) (vec_len self.now.ends) }
    {
        self.marks.len().min(self.ends.len())
    }

    /// The runs, for reading.
    pub fn table(&self) -> RunTable<'_, M>
        ensures runs { result ≡ runs_of (take self.now.used self.now.marks.items) (take self.now.used self.now.ends.items) }
        ensures ascending { Ascending result }
    {
        RunTable::over(&self.marks[0..self.used], &self.ends[0..self.used])
    }

    /// Forgets the runs, and leaves every entry.
    pub fn clear(&mut self)
        ensures marks { self.new.marks ≡ self.old.marks }
        ensures ends { self.new.ends ≡ self.old.ends }
        ensures none { self.new.used ≡ 0 }
    {
        self.used = 0;
    }

    /// Packs the box into this memory, as far as there is room, and answers how many runs it has.
    pub fn write<B: MarkedBox<M>>(&mut self, area: &B) -> usize
        ensures packed { Packed (mark_of (B.MarkedBox.gap area.now) (B.MarkedBox.cells area.now)) (B.MarkedBox.size area.now) self.old.marks.items self.new.marks.items self.old.ends.items self.new.ends.items result }
        ensures used { self.new.used ≡ min result (min (vec_len self.old.marks) (vec_len self.old.ends)) }
        ensures marks_len { vec_len self.new.marks ≡ vec_len self.old.marks }
        ensures ends_len { vec_len self.new.ends ≡ vec_len self.old.ends }
    {
        let room = self.room();
        let needed = pack(area, &mut self.marks, &mut self.ends);
        self.used = needed.min(room);
        needed
    }
}
