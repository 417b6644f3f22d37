//! Prefix cells and suffix cells: each is an item, or one combination of the item with the cell beside it.
//!
//! The two kinds mirror each other: the block's other end, the cell on the other side, the other order of combining and of
//! walking. A function over both would take each of these as an argument, and say less.
//!
//! The loops go over numbers of events: a cell is made of two others of the same table, which an iterator over it would hold.

ghost use Rattle.std.specs.Prelude.{◌≡◌, ◌+◌, ◌-◌, ◌*◌, ◌^◌, ◌<◌, ◌≤◌, length, take, Some};
ghost use Rattle.std.specs.List.{slice_get};
ghost use Rattle.scheme.specs.Table.{Written, due};
ghost use Rattle.layer_parts.specs.Parts.{prefixes, suffixes};
ghost use Rattle.layer_parts.specs.Writes.{PriorHolds, NextHolds, Redone};
ghost use Rattle.block_layer.specs.Steps.{RowFits};

use crate::steps::events_of;
use scheme::{BlockExponent, EventCount};
use semigroup::Semigroup;

/// A row of cells, one for each event, over blocks; it begins at a place of a table.
#[derive(Clone, Copy)]
pub(crate) struct Row {
    pub(crate) events: EventCount,
    pub(crate) block: BlockExponent,
    pub(crate) at: usize,
}

impl Row {
    // The prefix cell of p: the cell of the event before it if that is in the same block, and the item.
    fn prefix_cell<T: Semigroup>(self, table: &[T], p: usize) -> T
        requires row { RowFits self.events.count self.at (length table.now) }
        requires event { p < self.events.count }
        ensures { PriorHolds T.Semigroup.op (take self.events.count table.now) self.events.count (2 ^ self.block.e) self.at p table.now → due T.Semigroup.op (take self.events.count table.now) (prefixes self.events.count (2 ^ self.block.e)).span p ≡ Some result }
    {
        let item = table[p];
        if self.block.start(p) == p {
            return item;
        }
        table[self.at + (p - 1)].combine(item)
    }

    // The suffix cell of p: the item, and the cell of the event after it if that is in the same block.
    fn suffix_cell<T: Semigroup>(self, table: &[T], p: usize) -> T
        requires row { RowFits self.events.count self.at (length table.now) }
        requires event { p < self.events.count }
        ensures { NextHolds T.Semigroup.op (take self.events.count table.now) self.events.count (2 ^ self.block.e) self.at p table.now → due T.Semigroup.op (take self.events.count table.now) (suffixes self.events.count (2 ^ self.block.e)).span p ≡ Some result }
    {
        let item = table[p];
        if self.block.end(self.events, p) == p + 1 {
            return item;
        }
        item.combine(table[self.at + (p + 1)])
    }

    // Computes the prefix cells of the events from `first` up to `last`, the first first.
    pub(crate) fn refresh_prefixes<T: Semigroup>(self, table: &mut [T], first: usize, last: usize)
        requires row { RowFits self.events.count self.at (length table.old) }
        requires range { (first ≤ last) × (last ≤ self.events.count) }
        ensures { Redone T.Semigroup.op (take self.events.count table.old) (prefixes self.events.count (2 ^ self.block.e)) self.at first last (PriorHolds T.Semigroup.op (take self.events.count table.old) self.events.count (2 ^ self.block.e) self.at first table.old) table.old table.new }
    {
        for p in first..last {
            let made = self.prefix_cell(table, p);
            table[self.at + p] = made;
        }
    }

    // Computes the suffix cells of the events from `first` up to `last`, the last first.
    pub(crate) fn refresh_suffixes<T: Semigroup>(self, table: &mut [T], first: usize, last: usize)
        requires row { RowFits self.events.count self.at (length table.old) }
        requires range { (first ≤ last) × (last ≤ self.events.count) }
        ensures { Redone T.Semigroup.op (take self.events.count table.old) (suffixes self.events.count (2 ^ self.block.e)) self.at first last (NextHolds T.Semigroup.op (take self.events.count table.old) self.events.count (2 ^ self.block.e) self.at (last - 1) table.old) table.old table.new }
    {
        for p in (first..last).rev() {
            let made = self.suffix_cell(table, p);
            table[self.at + p] = made;
        }
    }
}

// Copies the first cell of each block from `from` on, m in all, to `at` and on. Over two parts of the table `zip` and `step_by` would
// say it in as many lines, and need `from` to be no more than `at`.
pub(crate) fn copy_children<T: Semigroup>(
    table: &mut [T],
    from: usize,
    blocks: BlockExponent,
    at: usize,
    m: usize,
)
    requires cells { (from + m * 2 ^ blocks.e < at + 2 ^ blocks.e) × (at + m ≤ length table.old) }
    requires few { m ≤ 65536 }
    ensures { Written (λ q. slice_get table.old (from + q * 2 ^ blocks.e)) m at table.old table.new }
{
    for q in 0..m {
        let product = table[from + events_of(q, blocks)];
        table[at + q] = product;
    }
}
