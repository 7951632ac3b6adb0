//! A session: a palette and two desks.
ghost use Rattle.std.specs.Prelude.{◌≡◌, ◌||◌, false, [], ◌∷◌, ◌++◌, is_ok, vec_len, IfOk, OnOk, OnErr, IsSome, IsNone, IsTrue};
ghost use Rattle.intake.specs.Order.{InOrder};

use crate::command::{Command, DeskName, Question};
use crate::desk::{Desk, compare};
use crate::desks::Desks;
use crate::misread::Misread;
use crate::palette::Palette;
use crate::reply::Reply;
use crate::style::Style;
use formats::CellFormat;
use replicas::{Answer, Call};
use sheet::Room;
use std::alloc::Global;

/// The palette, the sheets that are there, and whether a call was made at one of them.
#[derive(Drop)]
pub struct Session {
    heap: Global,
    palette: Palette,
    desks: Desks,
    // A bool: an enum of two variants would say no more than the name does.
    called: bool,
    ghost in_order: { ∥ InOrder palette.entries.items called desks ∥₁ },
}

impl Session {
    ghost use Rattle.intake.specs.Places.{desk_at, other_desk};
    ghost use Rattle.intake.specs.Sessions.{Made, NewDesk, Answered, Agreed, Refuses, RepliesTo};

    /// A session with no xf and no sheet.
    pub fn new(heap: Global) -> Session
        ensures empty { (result.palette.entries.items ≡ []) × (result.desks.loader ≡ None) × (result.desks.floor ≡ None) }
        ensures uncalled { result.called ≡ false }
    {
        Session {
            heap,
            palette: Palette::new(heap),
            desks: Desks::default(),
            called: false,
        }
    }

    /// Carries a command out, and answers it. Where it cannot be, nothing changes.
    pub fn carry_out(&mut self, command: Command) -> Result<Reply<'_>, Misread>
        ensures { IfOk result (λ reply. RepliesTo self.old command reply) }
    {
        match command {
            Command::Open { name, room } => {
                self.open(name, room)?;
                Ok(Reply::Ready)
            }
            Command::AddXf { kind } => Ok(Reply::Added {
                number: self.add_xf(kind)?,
            }),
            Command::Make { name, call } => Ok(Reply::Made(self.make(name, call)?)),
            Command::Ask { name, question } => self.ask(name, question),
            Command::Agree => Ok(Reply::Agree(self.agree()?)),
        }
    }

    /// Makes the sheet of a desk.
    fn open(&mut self, name: DeskName, room: Room) -> Result<(), Misread>
        ensures made { OnOk result (NewDesk room (desk_at name self.new.desks)) }
        ensures refused { Refuses result Misread.SecondSheet (IsSome (desk_at name self.old.desks)) Misread.NoMemoryForSheet }
        ensures err { OnErr result (desk_at name self.new.desks ≡ desk_at name self.old.desks) }
        ensures rest { (other_desk name self.new.desks ≡ other_desk name self.old.desks) × (self.new.palette.entries.items ≡ self.old.palette.entries.items) × (self.new.called ≡ self.old.called) }
    {
        let place = self.desks.place(name);
        if place.is_some() {
            return Err(Misread::SecondSheet);
        }
        let desk = Desk::new(self.heap, room).map_err(|_| Misread::NoMemoryForSheet)?;
        *place = Some(desk);
        Ok(())
    }

    /// Adds an entry to the palette, as long as no call was made.
    fn add_xf(&mut self, kind: CellFormat) -> Result<u32, Misread>
        ensures added { IfOk result (λ n. (n ≡ vec_len self.old.palette.entries) × (self.new.palette.entries.items ≡ self.old.palette.entries.items ++ record { style = record { number = n }; kind = kind } ∷ [])) }
        ensures refused { Refuses result Misread.LateXf (IsTrue self.old.called) Misread.NoMemoryForXf }
        ensures err { OnErr result (self.new.palette.entries.items ≡ self.old.palette.entries.items) }
        ensures rest { (self.new.desks ≡ self.old.desks) × (self.new.called ≡ self.old.called) }
    {
        if self.called {
            return Err(Misread::LateXf);
        }
        self.palette.add(kind)
    }

    /// Makes a call at a sheet.
    fn make(&mut self, name: DeskName, call: Call) -> Result<Answer, Misread>
        ensures made { Made self.old name call result self.new }
        ensures refused { Refuses result Misread.NoSheet (IsNone (desk_at name self.old.desks)) Misread.NoMemoryForCall }
        ensures called { self.new.called ≡ (is_ok result || self.old.called) }
    {
        let place = self.desks.place(name);
        let desk = place.as_mut().ok_or(Misread::NoSheet)?;
        let answer = desk
            .make_call(self.palette.entries(), call)
            .map_err(|_| Misread::NoMemoryForCall)?;
        self.called = true;
        Ok(answer)
    }

    /// Answers a question about a sheet.
    fn ask(&self, name: DeskName, question: Question) -> Result<Reply<'_>, Misread>
        ensures answered { IfOk result (λ reply. Answered self.now.palette.entries.items (desk_at name self.now.desks) question reply) }
        ensures refused { Refuses result Misread.NoSheet (IsNone (desk_at name self.now.desks)) Misread.NoSheet }
    {
        let desk = self.desks.get(name).ok_or(Misread::NoSheet)?;
        let sheet = desk.sheet();
        let palette = &self.palette;
        let reply = match question {
            Question::Get { row, column } => {
                let number = desk.style_number(palette, row, column);
                Reply::Style(number)
            }
            Question::Kind { row, column } => Reply::Kind(sheet.kind(row, column)),
            Question::Runs => Reply::Runs { sheet },
            Question::Walk => Reply::Walk {
                sheet,
                palette: palette.entries(),
            },
        };
        Ok(reply)
    }

    /// Whether the two sheets agree.
    fn agree(&self) -> Result<bool, Misread>
        ensures refused { Refuses result Misread.NotBothSheets (¬ (IsSome self.now.desks.loader × IsSome self.now.desks.floor)) Misread.NoMemoryForAgree }
        ensures agreed { IfOk result (λ agree. Agreed agree self.now.desks.loader self.now.desks.floor) }
    {
        let desks = &self.desks;
        let loader = desks.get(DeskName::Loader).ok_or(Misread::NotBothSheets)?;
        let floor = desks.get(DeskName::Floor).ok_or(Misread::NotBothSheets)?;
        compare(self.heap, self.palette.entries(), loader, floor).map_err(
            |_| Misread::NoMemoryForAgree,
        )
    }
}
