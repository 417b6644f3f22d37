//! A table of halved blocks.
//!
//! Row h, from 0, cuts the events into blocks of 2^(h+1), and each block into a left and a right half; row 0 is the items.
//! In a left half an event's cell reaches from it to the half's end, in a right half from the half's start to it, so a query
//! reads the two cells that meet between its first and its last event. Past the items a cell is its item, or one combination
//! of the item with the cell beside it.
//!
//! The loops go over numbers of rows and events: a cell is made of two others of the same table, which an iterator over the table
//! would hold.

ghost use Rattle.std.specs.Prelude.{◌≡◌, ◌+◌, ◌*◌, ◌<◌, ◌≤◌, IsTrue, IsFalse, length, take, Some};
ghost use Rattle.scheme.specs.Calls.{piece_of};
ghost use Rattle.basic_schemes.specs.HalvingPlan.{rows, row_of_parting, Parted, halving_plan};
ghost use Rattle.basic_schemes.specs.HalvingRows.{RowFits, Left, Right, reached, NextHolds, PriorHolds, Redone, RowFilled, RowRenewed};
ghost use Rattle.basic_schemes.specs.HalvingLayout.{halving_sound};

use scheme::{
    Answer, BlockExponent, CellNo, EventCount, EventNo, EventRun, ParentExponent, Piece, Scheme,
    exponent_of,
};
use semigroup::Semigroup;
use std::ops::Range;

/// The scheme of halved blocks.
#[derive(Clone, Copy)]
pub struct Halving;

impl Scheme for Halving {
    ghost plan = { λ _. halving_plan };

    ghost sound = { λ s. halving_sound };

    fn child_exponent(&self, parents: ParentExponent) -> u32 {
        exponent_of(parents.blocks.e)
    }

    fn budget(&self) -> u64 {
        2
    }

    fn cells(&self, events: EventCount) -> u64 {
        u64::from(events.count) * u64::from(row_count(events))
    }

    fn piece_count(&self, run: EventRun) -> u32 {
        if run.first == run.last { 1 } else { 2 }
    }

    fn fill<T: Semigroup>(&self, events: EventCount, table: &mut [T]) {
        for h in 1..row_count(events) {
            let row = Row {
                events,
                halves: BlockExponent { e: h },
            };
            row.fill(table);
        }
    }

    fn query<T: Semigroup>(&self, table: &[T], run: EventRun, trace: &mut [Piece]) -> Answer<T> {
        if run.first == run.last {
            trace[0] = Piece {
                cell: CellNo(u64::from(run.first.0)),
                first: run.first,
                last: run.last,
            };
            return Answer {
                value: table[run.first.0 as usize],
                combinations: 0,
            };
        }
        let (first, second) = end_pieces(run);
        trace[0] = first;
        trace[1] = second;
        let value = table[first.cell.0 as usize].combine(table[second.cell.0 as usize]);
        Answer {
            value,
            combinations: 1,
        }
    }

    fn update<T: Semigroup>(&self, events: EventCount, table: &mut [T], p: EventNo, element: T) {
        let rows = row_count(events);
        let p = p.0 as usize;
        table[p] = element;
        for h in 1..rows {
            let row = Row {
                events,
                halves: BlockExponent { e: h },
            };
            row.renew(table, p);
        }
    }
}

// The number of rows of a table.
fn row_count(events: EventCount) -> u32
    ensures value { result ≡ rows events.count }
    ensures few { result ≤ 16 }
{
    exponent_of(events.count).max(1)
}

// The pieces of a run of two events or more: the cells of its first and its last event that meet between them.
fn end_pieces(run: EventRun) -> (Piece, Piece)
    requires { run.first.0 < run.last.0 }
    ensures left { result.0 ≡ piece_of (halving_plan.part run.events.count) (row_of_parting run.first.0 run.last.0 * run.events.count + run.first.0) }
    ensures right { result.1 ≡ piece_of (halving_plan.part run.events.count) (row_of_parting run.first.0 run.last.0 * run.events.count + run.last.0) }
    ensures below { (result.0.cell.0 < (halving_plan.part run.events.count).size) × (result.1.cell.0 < (halving_plan.part run.events.count).size) }
{
    let row = Row::of_parting(run);
    let middle = row.halves.start(run.last.0 as usize) as u32;
    let left = Piece {
        cell: CellNo(row.cell_of(run.first.0 as usize) as u64),
        first: run.first,
        last: EventNo(middle - 1),
    };
    let right = Piece {
        cell: CellNo(row.cell_of(run.last.0 as usize) as u64),
        first: EventNo(middle),
        last: run.last,
    };
    (left, right)
}

// Row h: the events in halves of 2^h, with a cell for each event.
//
// Left halves are computed downwards, each item before the cell that follows it, and right halves upwards, each item after
// the cell before it: one function for both would take the order, the neighbour and the sides as parameters. A layer of blocks
// makes its suffix and prefix cells alike; what two crates share is public, and a public call may not require room in a table.
#[derive(Clone, Copy)]
struct Row {
    events: EventCount,
    halves: BlockExponent,
}

impl Row {
    // The row in which the first and the last event of a run are in the two halves of one block.
    fn of_parting(run: EventRun) -> Row
        requires { run.first.0 < run.last.0 }
        ensures events { result.events ≡ run.events }
        ensures value { result.halves.e ≡ row_of_parting run.first.0 run.last.0 }
        ensures parted { Parted run.first.0 run.last.0 result.halves.e }
    {
        let differing = run.first.0 ^ run.last.0;
        Row {
            events: run.events,
            halves: BlockExponent {
                e: 31 - differing.leading_zeros(),
            },
        }
    }

    // The place of the cell for p.
    fn cell_of(self, p: usize) -> usize
        requires { p < self.events.count }
        ensures { result ≡ self.halves.e * self.events.count + p }
    {
        self.halves.e as usize * self.events.count as usize + p
    }

    // Whether p is in a left half.
    fn is_left(self, p: usize) -> bool
        ensures left { IsTrue result → Left self.halves.e p }
        ensures right { IsFalse result → Right self.halves.e p }
    {
        (p >> self.halves.e) % 2 == 0
    }

    // The cell for p of a left half: the item, and the cell of the event after it if that is in the half.
    fn left_cell<T: Semigroup>(self, table: &[T], p: usize) -> T
        requires row { RowFits self.events.count self.halves.e (length table.now) }
        requires event { (p < self.events.count) × (Left self.halves.e p) }
        ensures { NextHolds T.Semigroup.op self.events.count self.halves.e (p + 1) table.now → reached T.Semigroup.op self.events.count (take self.events.count table.now) self.halves.e p ≡ Some result }
    {
        let item = table[p];
        let next = p + 1;
        if next == self.halves.end(self.events, p) {
            return item;
        }
        item.combine(table[self.cell_of(next)])
    }

    // The cell for p of a right half: the cell of the event before it if that is in the half, and the item.
    fn right_cell<T: Semigroup>(self, table: &[T], p: usize) -> T
        requires row { RowFits self.events.count self.halves.e (length table.now) }
        requires event { (p < self.events.count) × (Right self.halves.e p) }
        ensures { PriorHolds T.Semigroup.op self.events.count self.halves.e p table.now → reached T.Semigroup.op self.events.count (take self.events.count table.now) self.halves.e p ≡ Some result }
    {
        let item = table[p];
        if p == self.halves.start(p) {
            return item;
        }
        table[self.cell_of(p - 1)].combine(item)
    }

    // Computes the cells of left halves for the events of a range, the last first.
    fn refresh_left<T: Semigroup>(self, table: &mut [T], range: Range<usize>)
        requires row { RowFits self.events.count self.halves.e (length table.old) }
        requires range { (range.start ≤ range.end) × (range.end ≤ self.events.count) }
        ensures { Redone T.Semigroup.op Left self.events.count self.halves.e range.start range.end (NextHolds T.Semigroup.op self.events.count self.halves.e range.end table.old) table.old table.new }
    {
        for p in range.rev() {
            if self.is_left(p) {
                let made = self.left_cell(table, p);
                table[self.cell_of(p)] = made;
            }
        }
    }

    // Computes the cells of right halves for the events of a range, the first first.
    fn refresh_right<T: Semigroup>(self, table: &mut [T], range: Range<usize>)
        requires row { RowFits self.events.count self.halves.e (length table.old) }
        requires range { (range.start ≤ range.end) × (range.end ≤ self.events.count) }
        ensures { Redone T.Semigroup.op Right self.events.count self.halves.e range.start range.end (PriorHolds T.Semigroup.op self.events.count self.halves.e range.start table.old) table.old table.new }
    {
        for p in range {
            if !self.is_left(p) {
                let made = self.right_cell(table, p);
                table[self.cell_of(p)] = made;
            }
        }
    }

    // Computes all cells.
    fn fill<T: Semigroup>(self, table: &mut [T])
        requires { RowFits self.events.count self.halves.e (length table.old) }
        ensures { RowFilled T.Semigroup.op self.events.count self.halves.e table.old table.new }
    {
        let n = self.events.count as usize;
        self.refresh_left(table, 0..n);
        self.refresh_right(table, 0..n);
    }

    // Computes the cells that reach over p: of p's half, those up to p if it is a left one, else those from p on.
    fn renew<T: Semigroup>(self, table: &mut [T], p: usize)
        requires row { RowFits self.events.count self.halves.e (length table.old) }
        requires event { p < self.events.count }
        ensures { RowRenewed T.Semigroup.op self.events.count p self.halves.e table.old table.new }
    {
        if self.is_left(p) {
            self.refresh_left(table, self.halves.start(p)..p + 1);
        } else {
            self.refresh_right(table, p..self.halves.end(self.events, p));
        }
    }
}
