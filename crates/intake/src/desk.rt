//! A desk: a sheet, and the calls that it has had.
ghost use Rattle.std.specs.Prelude.{◌≡◌, List, [], IfOk, Some, None, Decides, MatchResult};
ghost use Rattle.std.specs.Option as options;
ghost use Rattle.sheet.specs.declared.xf.Xf as entry;
ghost use Rattle.sheet.specs.Reads.{got};
ghost use Rattle.replicas.specs.Promise.{SameRuns};
ghost use Rattle.intake.specs.declared.style.Style as style;
ghost use Rattle.intake.specs.Desks.{calls_of, packed_id, Recorded, SameDesk, SameRoom, InStep};

use crate::palette::Palette;
use crate::style::Style;
use replicas::{Answer, Call, apply, play_both};
use sheet::{Room, Sheet, SheetMemory, Xf};
use std::alloc::{AllocError, Global};

/// A sheet, the calls that it has had, and how much it has room for.
#[derive(Drop)]
pub struct Desk {
    sheet: Sheet,
    calls: Vec<Call>,
    room: Room,
}

impl Desk {
    /// A desk with an empty sheet.
    pub fn new(heap: Global, room: Room) -> Result<Desk, AllocError>
        ensures made { IfOk result (λ d. (calls_of d ≡ []) × (d.room ≡ room)) }
        ensures in_step { IfOk result (λ d. (palette : List (entry.Xf style.Style)) → InStep palette d) }
    {
        let memory = SheetMemory::with_room(heap, room)?;
        Ok(Desk {
            sheet: Sheet::new(memory),
            calls: Vec::new(heap),
            room,
        })
    }

    /// The sheet, for reading.
    pub fn sheet(&self) -> &Sheet
        ensures { result.now ≡ self.now.sheet }
    {
        &self.sheet
    }

    /// The number of the style at a position: the id that was packed there.
    // The palette and not its entries alone, since this rests on the palette's invariant.
    pub fn style_number(&self, palette: &Palette, row: u32, column: u32) -> Option<u32>
        ensures { options.MatchOption result (got palette.now.entries.items self.now.sheet row column ≡ None) (λ n. packed_id self.now.sheet row column ≡ Some n) }
    {
        let style = self.sheet.get(palette.entries(), row, column)?;
        Some(style.number)
    }

    /// Records a call, and makes it at the sheet. Where there is no memory to record it, it is not made.
    pub fn make_call(&mut self, palette: &[Xf<Style>], call: Call) -> Result<Answer, AllocError>
        ensures cases { MatchResult result (λ answer. Recorded palette.now self.old call answer self.new) (λ _. SameDesk self.old self.new) }
        ensures in_step { InStep palette.now self.old → InStep palette.now self.new }
        ensures room { SameRoom self.old self.new }
    {
        self.calls.push(call)?;
        Ok(apply(&mut self.sheet, palette, call))
    }
}

/// Whether the sheets of two desks have the same box and the same runs, by playing the calls of both
/// anew.
pub fn compare(
    heap: Global,
    palette: &[Xf<Style>],
    loader: &Desk,
    floor: &Desk,
) -> Result<bool, AllocError>
    ensures { IfOk result (λ agree. InStep palette.now loader.now → InStep palette.now floor.now → Decides agree (SameRuns loader.now.sheet floor.now.sheet)) }
{
    let loader_memory = SheetMemory::with_room(heap, loader.room)?;
    let floor_memory = SheetMemory::with_room(heap, floor.room)?;
    let played = play_both::<Style, u32>(
        palette,
        loader_memory,
        &loader.calls,
        floor_memory,
        &floor.calls,
    );
    Ok(played.agree)
}
