//! Filling a table: prefix cells, suffix cells and inner tables, step by step.

ghost use Rattle.std.specs.Prelude.{◌≡◌, ◌+◌, ◌/◌, ◌^◌, ◌<◌, ◌≤◌, length, take};
ghost use Rattle.scheme.specs.Table.{Filled, Holds};
ghost use Rattle.scheme.specs.Calls.{Room};
ghost use Rattle.layer_parts.specs.Parts.{suffixes, lifted, inner_tables, parent_count, step_part};
ghost use Rattle.layer_parts.specs.Layout.{layer_plan};
ghost use Rattle.block_layer.specs.Steps.{StepFits};

use crate::cells::{Layer, Parent};
use crate::rows::{Row, copy_children};
use crate::steps::{PlacedStep, events_of};
use scheme::{EventNo, Scheme};
use semigroup::Semigroup;

impl Parent {
    // Fills the inner table from the suffix cells of the children, which begin at `suffixes_at`.
    fn fill<S: Scheme, T: Semigroup>(
        self,
        inner: &S,
        table: &mut [T],
        suffixes_at: usize,
        cells: usize,
    )
        requires cells { (cells ≡ ((S.Scheme.plan inner.now).part self.children.count).size) × (cells < 2 ^ 40) }
        requires place { (self.events.count ≤ suffixes_at) × ((suffixes_at + self.events.count ≤ self.at) × (self.at + cells ≤ length table.old)) }
        requires suffixes { Holds T.Semigroup.op (take self.events.count table.old) (suffixes self.events.count (2 ^ self.block.e)) suffixes_at table.old }
        ensures { Filled T.Semigroup.op (take self.events.count table.old) (lifted ((S.Scheme.plan inner.now).part self.children.count) self.events.count self.start.0 (2 ^ self.block.e)) self.at table.old table.new }
    {
        let from = suffixes_at + self.start.0 as usize;
        copy_children(
            table,
            from,
            self.block,
            self.at,
            self.children.count as usize,
        );
        inner.fill(self.children, &mut table[self.at..self.at + cells]);
    }
}

impl<S: Scheme> Layer<'_, S> {
    // Fills the inner tables of the parents of a step that are not cut, by their numbers, from which their places follow.
    fn fill_whole_inners<T: Semigroup>(&self, table: &mut [T], placed: PlacedStep)
        requires step { StepFits (S.Scheme.plan self.now.inner.now) self.now.events.count placed.step.parents.e placed.step.children.e placed.at (length table.old) }
        requires suffixes { Holds T.Semigroup.op (take self.now.events.count table.old) (suffixes self.now.events.count (2 ^ placed.step.children.e)) (placed.at + self.now.events.count) table.old }
        ensures { Filled T.Semigroup.op (take self.now.events.count table.old) (inner_tables (S.Scheme.plan self.now.inner.now).part self.now.events.count (2 ^ placed.step.parents.e) (2 ^ placed.step.children.e) (self.now.events.count / 2 ^ placed.step.parents.e)) (placed.at + self.now.events.count + self.now.events.count) table.old table.new }
    {
        let PlacedStep { step, at } = placed;
        let n = self.events.count;
        let suffixes_at = at + n as usize;
        let full = n >> step.parents.e;
        let cells = self.whole_cells(step, full) as usize;
        for k in 0..full {
            let parent = Parent {
                events: self.events,
                start: EventNo(events_of(k as usize, step.parents) as u32),
                children: step.whole_count(),
                block: step.children,
                at: suffixes_at + n as usize + k as usize * cells,
            };
            parent.fill(self.inner, table, suffixes_at, cells);
        }
    }

    // Fills the inner tables of all parents of a step.
    fn fill_inners<T: Semigroup>(&self, table: &mut [T], placed: PlacedStep)
        requires step { StepFits (S.Scheme.plan self.now.inner.now) self.now.events.count placed.step.parents.e placed.step.children.e placed.at (length table.old) }
        requires suffixes { Holds T.Semigroup.op (take self.now.events.count table.old) (suffixes self.now.events.count (2 ^ placed.step.children.e)) (placed.at + self.now.events.count) table.old }
        ensures { Filled T.Semigroup.op (take self.now.events.count table.old) (inner_tables (S.Scheme.plan self.now.inner.now).part self.now.events.count (2 ^ placed.step.parents.e) (2 ^ placed.step.children.e) (parent_count self.now.events.count (2 ^ placed.step.parents.e))) (placed.at + self.now.events.count + self.now.events.count) table.old table.new }
    {
        self.fill_whole_inners(table, placed);
        let n = self.events.count;
        if placed.step.parents.start(n as usize) == n as usize {
            return;
        }
        let parent = self.parent_of(placed, EventNo(n - 1));
        let cells = self.inner.cells(parent.children) as usize;
        parent.fill(self.inner, table, placed.at + n as usize, cells);
    }

    // Fills the cells of a step.
    fn fill_step<T: Semigroup>(&self, table: &mut [T], placed: PlacedStep)
        requires { StepFits (S.Scheme.plan self.now.inner.now) self.now.events.count placed.step.parents.e placed.step.children.e placed.at (length table.old) }
        ensures { Filled T.Semigroup.op (take self.now.events.count table.old) (step_part (S.Scheme.plan self.now.inner.now).part self.now.events.count (2 ^ placed.step.parents.e) (2 ^ placed.step.children.e)) placed.at table.old table.new }
    {
        let count = self.events.count as usize;
        self.prefixes(placed).refresh_prefixes(table, 0, count);
        self.suffixes(placed).refresh_suffixes(table, 0, count);
        self.fill_inners(table, placed);
    }

    // Fills the cells of all steps.
    pub(crate) fn fill<T: Semigroup>(&self, table: &mut [T])
        requires { Room (layer_plan (S.Scheme.plan self.now.inner.now)) self.now.events.count (length table.old) }
        ensures { Filled T.Semigroup.op (take self.now.events.count table.old) ((layer_plan (S.Scheme.plan self.now.inner.now)).part self.now.events.count) 0 table.old table.new }
    {
        for placed in self.placed_steps() {
            self.fill_step(table, placed);
        }
    }
}
