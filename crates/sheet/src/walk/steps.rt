//! One step of a walk.
ghost use Rattle.std.specs.Prelude.{◌-◌};
ghost use Rattle.cells.specs.Area.{extent, size};
ghost use Rattle.cells.specs.Going.{place};
ghost use Rattle.sheet.specs.Coming.{Stepped};
ghost use Rattle.std.specs.Iterator.{at_most};

use crate::walk::{Styled, Walk};
use crate::xf::style_of;

impl<'s, 'p, S> Iterator for Walk<'s, 'p, S> {
    type Item = Styled<'p, S>;

    ghost next_gives = { Stepped };

    ghost remaining = { λ w. at_most (size (extent w.positions.area) - place w.positions) };

    fn next(&mut self) -> Option<Styled<'p, S>> {
        let at = self.positions.next()?;
        let style = self.ids.next().and_then(|id| style_of(self.palette, id));
        Some(Styled { at, style })
    }
}
