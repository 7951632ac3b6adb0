//! Packing: a box of marked cells as the shortest list of runs, in one pass over the cells.
ghost use Rattle.std.specs.Prelude.{◌≡◌, ℕ, ◌<◌, ◌≤◌, List, slice_set};
ghost use Rattle.runs.specs.Marks.{mark_of};
ghost use Rattle.runs.specs.Memory.{Packed, Needs};
ghost use Rattle.runs.specs.Written.{Written};

use crate::mark::Mark;
use crate::marked::MarkedBox;

/// The runs so far: how many there are, and the mark and the end of the last. While there are none the
/// mark is any; an `Option` of the last run would need the end 0 of no run as a case in every clause.
// That there are no more runs than places is a clause of `extend`: beside a ghost field nothing derives
// `Clone`. The two memories go beside it, since a pack is lent them as two slices.
#[derive(Clone, Copy)]
struct Tail<M> {
    count: usize,
    mark: M,
    end: u64,
}

/// Writes at an index that the memory has, and nothing past its end. By index: after `get_mut` of a
/// slice a proof knows nothing of the other elements.
fn put_at<T: Copy>(memory: &mut [T], index: usize, value: T)
    ensures { memory.new ≡ slice_set memory.old index value }
{
    if index < memory.len() {
        memory[index] = value;
    }
}

/// Gives the positions from the last run's end up to `upto` that mark, in the last run where it has
/// the same mark, else in a new one.
fn extend<M: Mark>(tail: Tail<M>, marks: &mut [M], ends: &mut [u64], mark: M, upto: u64) -> Tail<M>
    requires counted { tail.count ≤ tail.end }
    requires forward { tail.end ≤ upto }
    ensures counted { result.count ≤ result.end }
    ensures end { result.end ≡ upto }
    ensures written { (spot : ℕ → M) → ((p : ℕ) → tail.end ≤ p → p < upto → spot p ≡ mark) → (marks0 : List M) (ends0 : List ℕ) → Written spot tail.end tail.count tail.mark marks0 marks.old ends0 ends.old → Written spot result.end result.count result.mark marks0 marks.new ends0 ends.new }
{
    if upto == tail.end {
        return tail;
    }
    let index = if tail.count > 0 && tail.mark.same(&mark) {
        tail.count - 1
    } else {
        tail.count
    };
    put_at(marks, index, mark);
    put_at(ends, index, upto);
    Tail {
        count: index + 1,
        mark,
        end: upto,
    }
}

/// Packs the box: writes its runs over the front of both memories, as far as they reach, and answers
/// how many runs there are.
pub fn pack<M: Mark, B: MarkedBox<M>>(area: &B, marks: &mut [M], ends: &mut [u64]) -> usize
    ensures { Packed (mark_of (B.MarkedBox.gap area.now) (B.MarkedBox.cells area.now)) (B.MarkedBox.size area.now) marks.old marks.new ends.old ends.new result }
{
    let gap = area.gap_mark();
    let size = area.positions();
    let mut tail = Tail {
        count: 0,
        mark: gap,
        end: 0,
    };
    // by index: for an iterator the trait would need a type of it, and laws of which cells it gives
    for index in 0..area.count() {
        let cell = area.cell(index).unwrap();
        tail = extend(tail, marks, ends, gap, cell.place);
        tail = extend(tail, marks, ends, cell.mark, cell.place + 1);
    }
    tail = extend(tail, marks, ends, gap, size);
    tail.count
}

/// How many runs the box has.
pub fn needed<M: Mark, B: MarkedBox<M>>(area: &B) -> usize
    ensures { Needs (mark_of (B.MarkedBox.gap area.now) (B.MarkedBox.cells area.now)) (B.MarkedBox.size area.now) result }
{
    let mut marks: [M; 0] = [];
    let mut ends: [u64; 0] = [];
    pack(area, &mut marks, &mut ends)
}
