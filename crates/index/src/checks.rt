//! The checks that come before a scheme's calls.

ghost use Rattle.std.specs.Prelude.{◌≡◌, IfOk};
ghost use Rattle.index.specs.Refusals.{table_refusal, run_refusal, item_refusal, Checked};

use crate::{Draft, IndexFault};
use scheme::{EventNo, EventRun, Scheme, UNCOUNTED};

impl<S: Scheme> Draft<S> {
    // Refuses a table with no room for the cells told. `UNCOUNTED` is a cap and no flag: what is told, 2^40 too, is the place
    // of the fault.
    pub(crate) fn check_table(&self, room: usize) -> Result<(), IndexFault>
        ensures checked { Checked result (table_refusal (S.Scheme.plan self.now.scheme) self.now.events.count room) }
    {
        let cells = self.cells();
        if cells == UNCOUNTED || (room as u64) < cells {
            return Err(IndexFault::ShortTable { cells });
        }
        Ok(())
    }

    // The run from i to j. Refuses what is no run of the events, and a trace with no room for the run's pieces.
    pub(crate) fn check_run(
        &self,
        i: EventNo,
        j: EventNo,
        room: usize,
    ) -> Result<EventRun, IndexFault>
        ensures checked { Checked result (run_refusal (S.Scheme.plan self.now.scheme) self.now.events.count i.0 j.0 room) }
        ensures made { IfOk result (λ run. (run.events ≡ self.now.events) × ((run.first ≡ i) × (run.last ≡ j))) }
    {
        let run = EventRun::new(self.events, i, j).ok_or(IndexFault::OutOfRange { event: j })?;
        let pieces = self.scheme.piece_count(run);
        if (room as u64) < u64::from(pieces) {
            return Err(IndexFault::ShortTrace { pieces });
        }
        Ok(run)
    }

    // Refuses an event that is not there.
    pub(crate) fn check_event(&self, p: EventNo) -> Result<(), IndexFault>
        ensures checked { Checked result (item_refusal self.now.events.count p.0) }
    {
        if self.events.count <= p.0 {
            return Err(IndexFault::OutOfRange { event: p });
        }
        Ok(())
    }
}
