//! Schemes: which products a table of cells holds, and which of them answer a query.
//!
//! A scheme lays a table out over n events, 1 to 65,536. Each cell stands for a run of events, its interval, and a query
//! over a run is answered from a few cells whose intervals follow one another, its pieces. What a scheme means is its
//! plan; how it fills, reads and updates a table is said in terms of the plan, for every type of elements.

#![tactic(auto)]

ghost use Rattle.std.specs.Prelude.{◌≡◌, ◌+◌, ◌<◌, ◌≤◌, length, take};
ghost use Rattle.scheme.specs.Plan.{Plan, Sound};
ghost use Rattle.scheme.specs.Table.{Filled};
ghost use Rattle.scheme.specs.Calls.{capped, Room, Drawn, Renewed};
ghost use Rattle.scheme.specs.Exponent.{exponent, LeastExponent};

mod events;

pub use events::{BlockExponent, EventCount, EventRun, MAX_EVENTS, ParentExponent};
use semigroup::Semigroup;

/// Stands for so many cells, or pieces, and for any greater number. It is a number and not a missing one: sums are capped at it, and
/// a fault tells it.
pub const UNCOUNTED: u64 = 1 << 40;

/// The number of an event, from 0.
#[derive(Clone, Copy, Debug, Default, PartialEq, Eq, PartialOrd, Ord)]
pub struct EventNo(pub u32);

/// The number of a block among the blocks of one parent, from 0.
#[derive(Clone, Copy, Debug, PartialEq, Eq, PartialOrd, Ord)]
pub struct ChildNo(pub u32);

/// The number of a cell of a table, from 0.
#[derive(Clone, Copy, Debug, Default, PartialEq, Eq)]
pub struct CellNo(pub u64);

/// A cell that a query read, with the first and the last event of its interval.
#[derive(Clone, Copy, Debug, Default, PartialEq, Eq)]
pub struct Piece {
    pub cell: CellNo,
    pub first: EventNo,
    pub last: EventNo,
}

/// What a query found: the product, and how many times two elements were combined for it.
#[derive(Drop)]
pub struct Answer<T> {
    pub value: T,
    pub combinations: u32,
}

/// A way to lay out a table.
///
/// What the arguments' types do not say is required of each call: the table and the trace are lent, so their room is known only there,
/// and an item is one of many of the same events.
pub trait Scheme {
    /// What the scheme means.
    ghost plan: { Self → Plan };

    /// The exponent of the children of blocks of 2^e events.
    fn child_exponent(&self, parents: ParentExponent) -> u32
        ensures told { result ≡ (plan self.now).child parents.blocks.e };

    /// The most pieces that a run can have; 2^40 stands for that or more.
    fn budget(&self) -> u64
        ensures told { result ≡ capped (plan self.now).budget };

    /// The number of cells; 2^40 stands for that or more.
    fn cells(&self, events: EventCount) -> u64
        ensures told { result ≡ capped ((plan self.now).part events.count).size };

    /// How many pieces a run has.
    fn piece_count(&self, run: EventRun) -> u32
        ensures counted { result ≡ length ((plan self.now).pieces run.events.count run.first.0 (run.last.0 + 1)) };

    /// Computes every cell from the items, which are the first cells.
    fn fill<T: Semigroup>(&self, events: EventCount, table: &mut [T])
        requires { Room (plan self.now) events.count (length table.old) }
        ensures filled { Filled T.Semigroup.op (take events.count table.old) ((plan self.now).part events.count) 0 table.old table.new };

    /// What the pieces of a run hold, combined left to right. The trace lists the pieces from its start on.
    fn query<T: Semigroup>(&self, table: &[T], run: EventRun, trace: &mut [Piece]) -> Answer<T>
        requires room { Room (plan self.now) run.events.count (length table.now) }
        requires trace { length ((plan self.now).pieces run.events.count run.first.0 (run.last.0 + 1)) ≤ length trace.old }
        ensures drawn { Drawn T.Semigroup.op ((plan self.now).part run.events.count) ((plan self.now).pieces run.events.count run.first.0 (run.last.0 + 1)) table.now trace.old trace.new result };

    /// Puts an element in the place of item p, and computes the cells anew whose interval has p in it.
    fn update<T: Semigroup>(&self, events: EventCount, table: &mut [T], p: EventNo, element: T)
        requires room { Room (plan self.now) events.count (length table.old) }
        requires event { p.0 < events.count }
        ensures renewed { Renewed T.Semigroup.op (plan self.now) events.count p.0 element table.old table.new };

    ghost sound: { (s : Self) → Sound (plan s) };
}

/// The least exponent whose power of two is n or more.
pub fn exponent_of(n: u32) -> u32
    ensures value { result ≡ exponent n }
    ensures least { LeastExponent n result }
{
    32 - n.saturating_sub(1).leading_zeros()
}
