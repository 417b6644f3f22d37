//! Updating a table: in each step, the prefix cells and the suffix cells of the event's child that have the event in them, and
//! then its child's product in the inner table of its parent.

ghost use Rattle.std.specs.Prelude.{◌≡◌, ◌+◌, ◌^◌, ◌<◌, ◌≤◌, length, take};
ghost use Rattle.scheme.specs.Table.{Holds};
ghost use Rattle.scheme.specs.Calls.{Room, Renewed};
ghost use Rattle.layer_parts.specs.Parts.{suffixes, inner_tables, parent_count, step_part};
ghost use Rattle.layer_parts.specs.Layout.{layer_plan};
ghost use Rattle.layer_parts.specs.Writes.{PartRenewed};
ghost use Rattle.block_layer.specs.Steps.{StepFits};

use crate::cells::Layer;
use crate::steps::{PlacedStep, inner_event};
use scheme::{EventNo, Scheme};
use semigroup::Semigroup;

impl<S: Scheme> Layer<'_, S> {
    // Updates the inner table of p's parent by the product of p's child, which the suffix cell of the child's first event holds.
    fn update_inner<T: Semigroup>(&self, table: &mut [T], placed: PlacedStep, p: EventNo)
        requires step { StepFits (S.Scheme.plan self.now.inner.now) self.now.events.count placed.step.parents.e placed.step.children.e placed.at (length table.old) }
        requires event { p.0 < self.now.events.count }
        ensures { PartRenewed T.Semigroup.op self.now.events.count p.0 (inner_tables (S.Scheme.plan self.now.inner.now).part self.now.events.count (2 ^ placed.step.parents.e) (2 ^ placed.step.children.e) (parent_count self.now.events.count (2 ^ placed.step.parents.e))) (placed.at + self.now.events.count + self.now.events.count) (Holds T.Semigroup.op (take self.now.events.count table.old) (suffixes self.now.events.count (2 ^ placed.step.children.e)) (placed.at + self.now.events.count) table.old) table.old table.new }
    {
        let step = placed.step;
        let parent = self.parent_of(placed, p);
        let cells = self.inner.cells(parent.children) as usize;
        let suffixes = self.suffixes(placed);
        let product = table[suffixes.at + step.children.start(p.0 as usize)];
        let child = inner_event(step.child_of(p));
        let inner_table = &mut table[parent.at..parent.at + cells];
        self.inner
            .update(parent.children, inner_table, child, product);
    }

    // Updates the cells of a step.
    fn update_step<T: Semigroup>(&self, table: &mut [T], placed: PlacedStep, p: EventNo)
        requires step { StepFits (S.Scheme.plan self.now.inner.now) self.now.events.count placed.step.parents.e placed.step.children.e placed.at (length table.old) }
        requires event { p.0 < self.now.events.count }
        ensures { PartRenewed T.Semigroup.op self.now.events.count p.0 (step_part (S.Scheme.plan self.now.inner.now).part self.now.events.count (2 ^ placed.step.parents.e) (2 ^ placed.step.children.e)) placed.at (Unit {0}) table.old table.new }
    {
        let event = p.0 as usize;
        let children = placed.step.children;
        let end = children.end(self.events, event);
        self.prefixes(placed).refresh_prefixes(table, event, end);
        let start = children.start(event);
        self.suffixes(placed)
            .refresh_suffixes(table, start, event + 1);
        self.update_inner(table, placed, p);
    }

    // Puts an element in the place of item p, and updates the cells of all steps.
    pub(crate) fn update<T: Semigroup>(&self, table: &mut [T], p: EventNo, element: T)
        requires room { Room (layer_plan (S.Scheme.plan self.now.inner.now)) self.now.events.count (length table.old) }
        requires event { p.0 < self.now.events.count }
        ensures { Renewed T.Semigroup.op (layer_plan (S.Scheme.plan self.now.inner.now)) self.now.events.count p.0 element table.old table.new }
    {
        table[p.0 as usize] = element;
        for placed in self.placed_steps() {
            self.update_step(table, placed, p);
        }
    }
}
