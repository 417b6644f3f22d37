//! Drafts, and how they are built.

ghost use Rattle.std.specs.Prelude.{◌≡◌, length, take, IfOk, Some, None, MatchResult};
ghost use Rattle.scheme.specs.Table.{Filled};
ghost use Rattle.index.specs.Refusals.{refusal_of, cells_told, count_refusal, table_refusal, Checked};
ghost use Rattle.index.specs.History.{Lasting};

use crate::{Built, Draft, IndexFault, Refused};
use scheme::{EventCount, Scheme};
use semigroup::Semigroup;

impl<S: Scheme> Draft<S> {
    /// A draft of an index of n events, refused unless n is 1 to 65,536.
    pub fn new(scheme: S, n: u32) -> Result<Draft<S>, IndexFault>
    where
        S: Drop,
        ensures decided { Checked result (count_refusal n) }
        ensures keeps { IfOk result (λ d. (d.events.count ≡ n) × (d.scheme ≡ scheme)) }
    {
        let events = EventCount::new(n).ok_or(IndexFault::EventCount { n })?;
        Ok(Draft { events, scheme })
    }

    /// The number of cells that a build needs; 2^40 stands for that or more, and is refused.
    pub fn cells(&self) -> u64
        ensures told { result ≡ cells_told (S.Scheme.plan self.now.scheme) self.now.events.count }
    {
        self.scheme.cells(self.events)
    }

    /// Builds the index over a table whose first n cells hold the items.
    pub fn build<T: Semigroup>(self, table: &mut [T]) -> Result<Built<S>, Refused<S>>
        ensures decided { MatchResult result (λ _. table_refusal (S.Scheme.plan self.scheme) self.events.count (length table.old) ≡ None) (λ e. table_refusal (S.Scheme.plan self.scheme) self.events.count (length table.old) ≡ Some (refusal_of e.fault)) }
        ensures moves { MatchResult result (λ b. b.draft ≡ self) (λ e. e.draft ≡ self) }
        ensures fills { MatchResult result (λ b. Filled T.Semigroup.op (take b.draft.events.count table.old) ((S.Scheme.plan b.draft.scheme).part b.draft.events.count) 0 table.old table.new) (λ _. table.new ≡ table.old) }
        ensures lasting { IfOk result (λ b. Lasting T.Semigroup.op (S.Scheme.plan b.draft.scheme) b.draft.events.count table.old table.new) }
    {
        // No `?` with a `map_err`: its closure would take the draft, and the fill needs it.
        if let Err(fault) = self.check_table(table.len()) {
            return Err(Refused { fault, draft: self });
        }
        self.scheme.fill(self.events, table);
        Ok(Built { draft: self })
    }
}
