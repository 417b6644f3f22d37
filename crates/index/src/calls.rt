//! What a built index is asked.

ghost use Rattle.std.specs.Prelude.{◌≡◌};
ghost use Rattle.index.specs.Refusals.{cells_told};
ghost use Rattle.index.specs.Calls.{Queried, Updated, AnsweredIfStanding, AmendedIfStanding};

use crate::{Built, IndexFault};
use scheme::{Answer, EventNo, Piece, Scheme};
use semigroup::Semigroup;

impl<S: Scheme> Built<S> {
    /// The number of cells that the index has.
    pub fn cells(&self) -> u64
        ensures told { result ≡ cells_told (S.Scheme.plan self.now.draft.scheme) self.now.draft.events.count }
    {
        self.draft.cells()
    }

    /// The product of the run from i to j, with the pieces that it was drawn from at the start of the trace.
    pub fn query<T: Semigroup>(
        &self,
        table: &[T],
        i: EventNo,
        j: EventNo,
        trace: &mut [Piece],
    ) -> Result<Answer<T>, IndexFault>
        ensures queried { Queried T.Semigroup.op (S.Scheme.plan self.now.draft.scheme) self.now.draft.events.count table.now i.0 j.0 trace.old result trace.new }
        ensures standing { AnsweredIfStanding T.Semigroup.op (S.Scheme.plan self.now.draft.scheme) self.now.draft.events.count table.now i.0 j.0 trace.old result trace.new }
    {
        self.draft.check_table(table.len())?;
        let run = self.draft.check_run(i, j, trace.len())?;
        Ok(self.draft.scheme.query(table, run, trace))
    }

    /// Puts an element in the place of item p.
    pub fn update<T: Semigroup>(
        &self,
        table: &mut [T],
        p: EventNo,
        element: T,
    ) -> Result<(), IndexFault>
        ensures updated { Updated T.Semigroup.op (S.Scheme.plan self.now.draft.scheme) self.now.draft.events.count table.old p.0 element result table.new }
        ensures standing { AmendedIfStanding T.Semigroup.op (S.Scheme.plan self.now.draft.scheme) self.now.draft.events.count table.old p.0 element result table.new }
    {
        self.draft.check_table(table.len())?;
        self.draft.check_event(p)?;
        self.draft
            .scheme
            .update(self.draft.events, table, p, element);
        Ok(())
    }
}
