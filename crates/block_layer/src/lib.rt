//! A layer of blocks over any scheme.
//!
//! The layer cuts the events into parents and each parent into children, step by step down a falling row of exponents. In
//! each step an event has a prefix cell and a suffix cell within its child, and each parent a table of the inner scheme whose
//! items are its children's products. A query is answered in the one step that has its ends in one parent and in two
//! children: by a suffix cell, by the inner scheme for the children between, and by a prefix cell.

#![tactic(auto)]

ghost use Rattle.std.specs.Prelude.{◌≡◌};
ghost use Rattle.layer_parts.specs.Layout.{count_of_steps, layer_plan};
ghost use Rattle.layer_parts.proofs.Soundness.{layer_sound};

mod cells;
mod fills;
mod pieces;
mod queries;
mod rows;
mod steps;
mod updates;
mod walk;

use cells::Layer;
use scheme::{
    Answer, CellNo, EventCount, EventNo, EventRun, ParentExponent, Piece, Scheme, UNCOUNTED,
    exponent_of,
};
use semigroup::Semigroup;
use walk::Steps;

/// A layer of blocks over an inner scheme.
#[derive(Clone, Copy)]
pub struct BlockLayer<S> {
    pub inner: S,
}

impl<S: Scheme> BlockLayer<S> {
    // The layer, for a table of so many events.
    fn over(&self, events: EventCount) -> Layer<'_, S>
        ensures { (result.inner.now ≡ self.now.inner) × (result.events ≡ events) }
    {
        Layer {
            inner: &self.inner,
            events,
        }
    }

    // The number of steps of the layout from blocks of 2^e events.
    fn step_count(&self, parents: ParentExponent) -> u32
        ensures { result ≡ count_of_steps (S.Scheme.plan self.now.inner).child parents.blocks.e }
    {
        let steps = Steps {
            inner: &self.inner,
            block: parents.blocks,
        };
        steps.count() as u32
    }
}

impl<S: Scheme> Scheme for BlockLayer<S> {
    ghost plan = { λ s. layer_plan (S.Scheme.plan s.inner) };

    ghost sound = { λ s. layer_sound _ (S.Scheme.sound s.inner) };

    fn child_exponent(&self, parents: ParentExponent) -> u32 {
        exponent_of(self.step_count(parents))
    }

    fn budget(&self) -> u64 {
        UNCOUNTED.min(self.inner.budget() + 2)
    }

    fn cells(&self, events: EventCount) -> u64 {
        self.over(events).cells()
    }

    fn piece_count(&self, run: EventRun) -> u32 {
        let EventRun {
            events,
            first,
            last,
        } = run;
        if first == last {
            return 1;
        }
        let layer = self.over(events);
        let step = layer.parting(first, last);
        layer.between_count(step, first, last) + 2
    }

    fn fill<T: Semigroup>(&self, events: EventCount, table: &mut [T]) {
        self.over(events).fill(table);
    }

    fn query<T: Semigroup>(&self, table: &[T], run: EventRun, trace: &mut [Piece]) -> Answer<T> {
        let EventRun {
            events,
            first,
            last,
        } = run;
        if first == last {
            trace[0] = Piece {
                cell: CellNo(u64::from(first.0)),
                first,
                last,
            };
            return Answer {
                value: table[first.0 as usize],
                combinations: 0,
            };
        }
        let layer = self.over(events);
        let step = layer.parting_step(first, last);
        layer.query_step(table, step, first, last, trace)
    }

    fn update<T: Semigroup>(&self, events: EventCount, table: &mut [T], p: EventNo, element: T) {
        self.over(events).update(table, p, element);
    }
}
