//! How many cells a step has, and where a parent's inner table begins among them.

ghost use Rattle.std.specs.Prelude.{◌≡◌, ◌+◌, ◌-◌, ◌*◌, ◌^◌, ◌<◌, ◌≤◌};
ghost use Rattle.scheme.specs.Calls.{capped};
ghost use Rattle.layer_parts.specs.Parts.{step_part, Children};
ghost use Rattle.layer_parts.specs.Layout.{layer_part};
ghost use Rattle.block_layer.specs.Steps.{StepFits, cells_of_whole, ParentOf};

use crate::rows::Row;
use crate::steps::{PlacedStep, Step};
use scheme::{BlockExponent, EventCount, EventNo, Scheme, UNCOUNTED};

/// A layer over an inner scheme, for a table of so many events.
#[derive(Drop)]
pub(crate) struct Layer<'a, S> {
    pub(crate) inner: &'a S,
    pub(crate) events: EventCount,
}

/// A parent among the events of a layer: its first event, the number of its children, which are the events of its inner
/// table, their blocks, and where that table begins.
#[derive(Clone, Copy)]
pub(crate) struct Parent {
    pub(crate) events: EventCount,
    pub(crate) start: EventNo,
    pub(crate) children: EventCount,
    pub(crate) block: BlockExponent,
    pub(crate) at: usize,
    ghost kids: { Children events.count start.0 (2 ^ block.e) children.count },
}

impl<S: Scheme> Layer<'_, S> {
    // The cells of the inner table of a parent with all its children, or 0 if none of k parents is there.
    pub(crate) fn whole_cells(&self, step: Step, k: u32) -> u64
        ensures value { result ≡ cells_of_whole (S.Scheme.plan self.now.inner.now) step.parents.e step.children.e k }
        ensures small { result ≤ 2 ^ 40 }
    {
        if k == 0 {
            return 0;
        }
        self.inner.cells(step.whole_count())
    }

    // The cells of a step; exact if they are fewer than 2^40.
    pub(crate) fn step_cells(&self, step: Step) -> u64
        ensures counted { capped result ≡ capped (step_part (S.Scheme.plan self.now.inner.now).part self.now.events.count (2 ^ step.parents.e) (2 ^ step.children.e)).size }
        ensures small { result < 2 ^ 60 }
    {
        let n = self.events.count;
        let full = n >> step.parents.e;
        let start = step.parents.start(n as usize) as u32;
        let whole = 2 * u64::from(n) + u64::from(full) * self.whole_cells(step, full);
        if start == n {
            return whole;
        }
        whole
            + self
                .inner
                .cells(step.child_count(self.events, EventNo(start)))
    }

    // The cells of the whole layer; 2^40 stands for that or more.
    pub(crate) fn cells(&self) -> u64
        ensures { result ≡ capped (layer_part (S.Scheme.plan self.now.inner.now) self.now.events.count).size }
    {
        let mut total = u64::from(self.events.count);
        for step in self.steps() {
            total = UNCOUNTED.min(total + self.step_cells(step));
        }
        total
    }

    // The parent of p in a step.
    pub(crate) fn parent_of(&self, placed: PlacedStep, p: EventNo) -> Parent
        requires step { StepFits (S.Scheme.plan self.now.inner.now) self.now.events.count placed.step.parents.e placed.step.children.e placed.at (2 ^ 40) }
        requires event { p.0 < self.now.events.count }
        ensures parent { ParentOf (S.Scheme.plan self.now.inner.now) self.now.events.count placed.step.parents.e placed.step.children.e placed.at p.0 result.start.0 result.children.count result.at }
        ensures children { (result.events ≡ self.now.events) × (result.block ≡ placed.step.children) }
    {
        let PlacedStep { step, at } = placed;
        let k = p.0 >> step.parents.e;
        let start = EventNo(step.parents.start(p.0 as usize) as u32);
        let before = u64::from(k) * self.whole_cells(step, k);
        Parent {
            events: self.events,
            start,
            children: step.child_count(self.events, start),
            block: step.children,
            at: at + 2 * self.events.count as usize + before as usize,
        }
    }

    // The prefix cells of a step.
    pub(crate) fn prefixes(&self, placed: PlacedStep) -> Row
        ensures { result ≡ record { events = self.now.events; block = placed.step.children; at = placed.at } }
    {
        Row {
            events: self.events,
            block: placed.step.children,
            at: placed.at,
        }
    }

    // The suffix cells of a step, which follow them.
    pub(crate) fn suffixes(&self, placed: PlacedStep) -> Row
        requires { placed.at < 2 ^ 40 }
        ensures { result ≡ record { events = self.now.events; block = placed.step.children; at = placed.at + self.now.events.count } }
    {
        Row {
            at: placed.at + self.events.count as usize,
            ..self.prefixes(placed)
        }
    }
}
