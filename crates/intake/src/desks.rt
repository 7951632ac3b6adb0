//! The two desks of a session.
ghost use Rattle.std.specs.Prelude.{◌≡◌};
ghost use Rattle.std.specs.Option.{option_copied};
ghost use Rattle.std.specs.Borrow.{sem};
ghost use Rattle.intake.specs.Places.{desk_at, LendsPlace};

use crate::command::DeskName;
use crate::desk::Desk;

/// The desks, each where its sheet was made.
#[derive(Default, Drop)]
pub struct Desks {
    loader: Option<Desk>,
    floor: Option<Desk>,
}

impl Desks {
    /// The desk of a name, for reading.
    pub fn get(&self, name: DeskName) -> Option<&Desk>
        ensures { option_copied result ≡ desk_at name self.now }
    {
        match name {
            DeskName::Loader => self.loader.as_ref(),
            DeskName::Floor => self.floor.as_ref(),
        }
    }

    /// The place of the desk of a name.
    pub fn place(&mut self, name: DeskName) -> &mut Option<Desk>
        ensures* lends { sem 𝓛 (LendsPlace self.entry name result) }
        ensures value { result.now ≡ desk_at name self.old }
    {
        match name {
            DeskName::Loader => &mut self.loader,
            DeskName::Floor => &mut self.floor,
        }
    }
}
