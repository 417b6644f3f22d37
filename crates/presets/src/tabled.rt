//! Schemes that read their child exponents from the table.

ghost use Rattle.std.specs.Prelude.{◌≡◌};

use crate::Preset;
use crate::child_exponents::tabled_child;
use basic_schemes::flat::Flat;
use basic_schemes::halving::Halving;
use block_layer::BlockLayer;
use scheme::{Answer, EventCount, EventNo, EventRun, ParentExponent, Piece, Scheme};
use semigroup::Semigroup;

// A scheme whose child exponents are a row of the table. Each names its row in a call: as a constant of the trait the row would
// need two laws beside it in each impl.
pub(crate) trait InTable: Scheme {
    // The entry of the row for blocks.
    fn row_entry(&self, parents: ParentExponent) -> u32
        ensures told { result ≡ (Self.Scheme.plan self.now).child parents.blocks.e };
}

impl InTable for Flat {
    fn row_entry(&self, parents: ParentExponent) -> u32 {
        tabled_child(Preset::One, parents)
    }
}

impl InTable for Halving {
    fn row_entry(&self, parents: ParentExponent) -> u32 {
        tabled_child(Preset::Two, parents)
    }
}

impl InTable for BlockLayer<ByTable<Flat>> {
    fn row_entry(&self, parents: ParentExponent) -> u32 {
        tabled_child(Preset::Three, parents)
    }
}

impl InTable for BlockLayer<ByTable<Halving>> {
    fn row_entry(&self, parents: ParentExponent) -> u32 {
        tabled_child(Preset::Four, parents)
    }
}

// A scheme as it is, but that its child exponents are read from the table.
#[derive(Clone, Copy)]
pub(crate) struct ByTable<S>(pub(crate) S);

impl<S: InTable> Scheme for ByTable<S> {
    ghost plan = { λ s. S.Scheme.plan s.0 };

    ghost sound = { λ s. S.Scheme.sound s.0 };

    fn child_exponent(&self, parents: ParentExponent) -> u32 {
        self.0.row_entry(parents)
    }

    fn budget(&self) -> u64 {
        self.0.budget()
    }

    fn cells(&self, events: EventCount) -> u64 {
        self.0.cells(events)
    }

    fn piece_count(&self, run: EventRun) -> u32 {
        self.0.piece_count(run)
    }

    fn fill<T: Semigroup>(&self, events: EventCount, table: &mut [T]) {
        self.0.fill(events, table)
    }

    fn query<T: Semigroup>(&self, table: &[T], run: EventRun, trace: &mut [Piece]) -> Answer<T> {
        self.0.query(table, run, trace)
    }

    fn update<T: Semigroup>(&self, events: EventCount, table: &mut [T], p: EventNo, element: T) {
        self.0.update(events, table, p, element)
    }
}
