//! A scheme with more cells than can be counted: that of every run, and 2^40 cells more for event 0.
//!
//! No table has room for these, so an index with them is never built. Without them it is the scheme of every run.

ghost use Rattle.index_tests.specs.VastPlan.{plan_of_vast};
ghost use Rattle.index_tests.specs.VastSound.{plan_of_vast_sound};

use basic_schemes::flat::Flat;
use scheme::{Answer, EventCount, EventNo, EventRun, ParentExponent, Piece, Scheme, UNCOUNTED};
use semigroup::Semigroup;

/// Whether the 2^40 cells more are there.
#[derive(Clone, Copy)]
pub enum Vast {
    /// With them.
    Uncounted,
    /// Without them: a table can have room, and the calls can be made.
    Counted,
}

impl Scheme for Vast {
    ghost plan = { plan_of_vast };

    ghost sound = { plan_of_vast_sound };

    fn child_exponent(&self, parents: ParentExponent) -> u32 {
        Flat.child_exponent(parents)
    }

    fn budget(&self) -> u64 {
        Flat.budget()
    }

    fn cells(&self, events: EventCount) -> u64 {
        match self {
            Vast::Uncounted => UNCOUNTED,
            Vast::Counted => Flat.cells(events),
        }
    }

    fn piece_count(&self, run: EventRun) -> u32 {
        Flat.piece_count(run)
    }

    fn fill<T: Semigroup>(&self, events: EventCount, table: &mut [T]) {
        match self {
            Vast::Uncounted => unreachable(),
            Vast::Counted => Flat.fill(events, table),
        }
    }

    fn query<T: Semigroup>(&self, table: &[T], run: EventRun, trace: &mut [Piece]) -> Answer<T> {
        match self {
            Vast::Uncounted => unreachable(),
            Vast::Counted => Flat.query(table, run, trace),
        }
    }

    fn update<T: Semigroup>(&self, events: EventCount, table: &mut [T], p: EventNo, element: T) {
        match self {
            Vast::Uncounted => unreachable(),
            Vast::Counted => Flat.update(events, table, p, element),
        }
    }
}
