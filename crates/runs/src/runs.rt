//! Going through a list of runs.
use crate::run::Run;
use std::slice::Iter;

/// The marks and the ends of the runs that are still to come.
// Two iterators and no `Zip`, of which nothing is known after its last item.
#[derive(Drop)]
pub struct Runs<'m, M> {
    pub(crate) marks: Iter<'m, M>,
    pub(crate) ends: Iter<'m, u64>,
}

impl<'m, M: Copy> Iterator for Runs<'m, M> {
    type Item = Run<M>;

    ghost use Rattle.std.specs.Iterator.{YieldsFirst, item_count};
    ghost use Rattle.runs.specs.Going.{rest};

    ghost next_gives = { YieldsFirst rest };

    ghost remaining = { item_count rest };

    fn next(&mut self) -> Option<Run<M>> {
        let mark = *self.marks.next()?;
        let end = *self.ends.next()?;
        Some(Run { mark, end })
    }
}
