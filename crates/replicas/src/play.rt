//! Playing lists of calls at real sheets.
ghost use Rattle.std.specs.Prelude.{◌≡◌, ℕ, List, ◌++◌, reverse, Decides};
ghost use Rattle.sheet.specs.Contents.{memory_cell_room, memory_run_room};
ghost use Rattle.replicas.specs.declared.call.Call.{Call};
ghost use Rattle.replicas.specs.Stands.{Applied, Stands};
ghost use Rattle.replicas.specs.Promise.{Promise, SameRuns};

use crate::call::{Answer, Call};
use runs::Mark;
use sheet::{Sheet, SheetMemory, Xf};

/// Two sheets after their calls, and whether the box and the runs of each kind are the same at both.
#[derive(Drop)]
pub struct Played {
    pub loader: Sheet,
    pub floor: Sheet,
    pub agree: bool,
}

/// Makes one call at a sheet.
pub fn apply<S>(sheet: &mut Sheet, palette: &[Xf<S>], call: Call) -> Answer
    ensures { Applied palette.now sheet.old call result sheet.new }
{
    match call {
        Call::Put { row, column, id } => Answer::Put(sheet.put(palette, row, column, id)),
        Call::Clear { row, column } => Answer::Clear(sheet.clear(row, column)),
        Call::Pack => Answer::Pack(sheet.pack(palette)),
    }
}

/// Makes the calls of a list, in order.
fn play<S>(sheet: &mut Sheet, palette: &[Xf<S>], calls: &[Call])
    ensures { (C R : ℕ) (h : List Call) → Stands palette.now C R h sheet.old → Stands palette.now C R (reverse calls.now ++ h) sheet.new }
{
    for call in calls {
        let _ = apply(sheet, palette, *call);
    }
}

/// Whether the box and the runs of each kind are the same at two sheets.
fn agree(loader: &Sheet, floor: &Sheet) -> bool
    ensures { Decides result (SameRuns loader.now floor.now) }
{
    loader.bounding_box() == floor.bounding_box()
        && loader.id_runs().same(&floor.id_runs())
        && loader.kind_runs().same(&floor.kind_runs())
}

/// Makes two sheets over one palette, the loader's and the floor's, and plays a list of calls at each.
/// The contract holds for every kind of mark `M`.
pub fn play_both<S, M: Mark>(
    palette: &[Xf<S>],
    loader: SheetMemory,
    loader_calls: &[Call],
    floor: SheetMemory,
    floor_calls: &[Call],
) -> Played
    ensures { Promise M palette.now (memory_cell_room loader) (memory_run_room loader) loader_calls.now result.loader (memory_cell_room floor) (memory_run_room floor) floor_calls.now result.floor result.agree }
{
    let mut loader = Sheet::new(loader);
    play(&mut loader, palette, loader_calls);
    let mut floor = Sheet::new(floor);
    play(&mut floor, palette, floor_calls);
    let agree = agree(&loader, &floor);
    Played {
        loader,
        floor,
        agree,
    }
}
