//! Packing a sheet.
ghost use Rattle.sheet.specs.Packs.{PackDone};

use crate::answers::{PackRefusal, RunCounts};
use crate::marked::{Ids, Kinds, MarkedCells};
use crate::memory::Sheet;
use crate::xf::Xf;
use formats::CellFormat;
use runs::needed;

impl Sheet {
    /// Packs the cells that are kept now into runs, for get, kind and walk. Where there is no room for
    /// them it is refused, and changes nothing.
    pub fn pack<S>(&mut self, palette: &[Xf<S>]) -> Result<RunCounts, PackRefusal>
        ensures { PackDone palette.now self.old result self.new }
    {
        let Some(area) = self.cells.bounding_box() else {
            self.area = None;
            self.ids.clear();
            self.kinds.clear();
            return Ok(RunCounts { ids: 0, kinds: 0 });
        };
        let cells = self.cells.cells();
        let ids = MarkedCells {
            cells,
            area,
            marking: Ids,
        };
        let kinds = MarkedCells {
            cells,
            area,
            marking: Kinds { palette },
        };
        let room = self.ids.room().min(self.kinds.room());
        // ids first, so that a pack that is refused for them does not count the kinds
        let id_runs = needed::<u32, _>(&ids);
        if id_runs > room {
            return Err(PackRefusal::IdRuns { needed: id_runs });
        }
        let kind_runs = needed::<CellFormat, _>(&kinds);
        if kind_runs > room {
            return Err(PackRefusal::KindRuns { needed: kind_runs });
        }
        self.ids.write(&ids);
        self.kinds.write(&kinds);
        self.area = Some(area);
        Ok(RunCounts {
            ids: id_runs,
            kinds: kind_runs,
        })
    }
}
