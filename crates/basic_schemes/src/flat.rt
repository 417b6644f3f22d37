//! A table of every run.
//!
//! Row g, from 0, has the runs of g + 1 events, one for each first event; row 0 is the items. A query reads one cell, and
//! each cell past the items is one combination: the run without its last event, and that event.
//!
//! The loops go over numbers of rows and events: a cell is made of two others of the same table, which an iterator over the table
//! would hold.

ghost use Rattle.std.specs.Prelude.{◌≡◌, ◌+◌, ◌<◌, ◌≤◌, length};
ghost use Rattle.basic_schemes.specs.FlatPlan.{row_start, flat_plan};
ghost use Rattle.basic_schemes.specs.FlatRows.{Redone};
ghost use Rattle.basic_schemes.specs.FlatLayout.{flat_sound};

use scheme::{Answer, CellNo, EventCount, EventNo, EventRun, ParentExponent, Piece, Scheme};
use semigroup::Semigroup;
use std::ops::Range;

/// The scheme of every run.
#[derive(Clone, Copy)]
pub struct Flat;

impl Scheme for Flat {
    ghost plan = { λ _. flat_plan };

    ghost sound = { λ s. flat_sound };

    fn child_exponent(&self, parents: ParentExponent) -> u32 {
        parents.blocks.e / 2
    }

    fn budget(&self) -> u64 {
        1
    }

    fn cells(&self, events: EventCount) -> u64 {
        let n = u64::from(events.count);
        n * (n + 1) / 2
    }

    fn piece_count(&self, _run: EventRun) -> u32 {
        1
    }

    fn fill<T: Semigroup>(&self, events: EventCount, table: &mut [T]) {
        for gap in 1..events.count {
            refresh(events, table, gap, 0..events.count - gap);
        }
    }

    fn query<T: Semigroup>(&self, table: &[T], run: EventRun, trace: &mut [Piece]) -> Answer<T> {
        let cell = cell_of(run.events, run.last.0 - run.first.0, run.first.0);
        trace[0] = Piece {
            cell: CellNo(cell as u64),
            first: run.first,
            last: run.last,
        };
        Answer {
            value: table[cell],
            combinations: 0,
        }
    }

    fn update<T: Semigroup>(&self, events: EventCount, table: &mut [T], p: EventNo, element: T) {
        let EventNo(p) = p;
        table[p as usize] = element;
        for gap in 1..events.count {
            let firsts = p.saturating_sub(gap)..(p + 1).min(events.count - gap);
            refresh(events, table, gap, firsts);
        }
    }
}

// The cell of the run from `first` to `first + gap`.
fn cell_of(events: EventCount, gap: u32, first: u32) -> usize
    requires { gap + first < events.count }
    ensures place { result ≡ row_start events.count gap + first }
    ensures below { result < (flat_plan.part events.count).size }
{
    if gap == 0 {
        return first as usize;
    }
    let gap = gap as usize;
    gap * events.count as usize - gap * (gap - 1) / 2 + first as usize
}

// Computes the cells of row `gap` for some first events, each from the row before.
fn refresh<T: Semigroup>(events: EventCount, table: &mut [T], gap: u32, firsts: Range<u32>)
    requires past { 0 < gap }
    requires room { (flat_plan.part events.count).size ≤ length table.old }
    requires range { (firsts.start ≤ firsts.end) × (firsts.end + gap ≤ events.count) }
    ensures redone { Redone T.Semigroup.op events.count gap firsts.start firsts.end table.old table.new }
{
    for first in firsts {
        let last = first + gap;
        let made = table[cell_of(events, gap - 1, first)].combine(table[last as usize]);
        table[cell_of(events, gap, first)] = made;
    }
}
