//! Steps of a layout: blocks, the parents, each cut into smaller blocks, its children.

ghost use Rattle.std.specs.Prelude.{◌≡◌, ◌≢◌, ◌+◌, ◌-◌, ◌*◌, ◌/◌, ◌^◌, ◌<◌, ◌≤◌, MatchOption};
ghost use Rattle.std.specs.Bool.{MatchBool};
ghost use Rattle.layer_parts.specs.Parts.{count_of_children};
ghost use Rattle.layer_parts.specs.Layout.{child_holding, Apart};
ghost use Rattle.block_layer.specs.Steps.{BetweenRun};

use scheme::{BlockExponent, ChildNo, EventCount, EventNo, EventRun};

/// A step of a layout: the blocks that are its parents, and those that are their children.
#[derive(Clone, Copy)]
pub(crate) struct Step {
    pub(crate) parents: BlockExponent,
    pub(crate) children: BlockExponent,
    ghost falls: { children.e < parents.e },
}

impl Step {
    // How many children a parent has that is not cut.
    pub(crate) fn whole_count(self) -> EventCount
        ensures { result.count ≡ 2 ^ (self.parents.e - self.children.e) }
    {
        EventCount {
            count: 1 << (self.parents.e - self.children.e),
        }
    }

    // How many children the parent has that begins at `start`: they are the events of its inner table.
    pub(crate) fn child_count(self, events: EventCount, start: EventNo) -> EventCount
        requires { start.0 < events.count }
        ensures { result.count ≡ count_of_children events.count start.0 (2 ^ self.parents.e) (2 ^ self.children.e) }
    {
        let held = self.parents.width().min(events.count - start.0);
        EventCount {
            count: (held + self.children.width() - 1) >> self.children.e,
        }
    }

    // Which child of its parent p is in.
    pub(crate) fn child_of(self, p: EventNo) -> ChildNo
        ensures { result.0 ≡ child_holding (2 ^ self.parents.e) (2 ^ self.children.e) p.0 }
    {
        ChildNo(p.0 % self.parents.width() / self.children.width())
    }

    // Whether i and j are in two children.
    pub(crate) fn parts(self, i: EventNo, j: EventNo) -> bool
        ensures { MatchBool result (i.0 / 2 ^ self.children.e ≢ j.0 / 2 ^ self.children.e) (i.0 / 2 ^ self.children.e ≡ j.0 / 2 ^ self.children.e) }
    {
        i.0 >> self.children.e != j.0 >> self.children.e
    }

    // The children strictly between those of i and of j, as a run of events of their parent's inner table, if there are any.
    pub(crate) fn between(self, events: EventCount, i: EventNo, j: EventNo) -> Option<EventRun>
        requires apart { Apart events.count (2 ^ self.parents.e) (2 ^ self.children.e) i.0 j.0 }
        ensures run { MatchOption result (child_holding (2 ^ self.parents.e) (2 ^ self.children.e) j.0 ≤ child_holding (2 ^ self.parents.e) (2 ^ self.children.e) i.0 + 1) (BetweenRun events.count self.parents.e self.children.e i.0 j.0) }
    {
        let first = ChildNo(self.child_of(i).0 + 1);
        let end = self.child_of(j);
        if first >= end {
            return None;
        }
        let start = EventNo(self.parents.start(i.0 as usize) as u32);
        Some(EventRun {
            events: self.child_count(events, start),
            first: inner_event(first),
            last: inner_event(ChildNo(end.0 - 1)),
        })
    }
}

/// A step, and where its cells begin in a table.
#[derive(Clone, Copy)]
pub(crate) struct PlacedStep {
    pub(crate) step: Step,
    pub(crate) at: usize,
}

// How many events so many blocks have.
pub(crate) fn events_of(count: usize, blocks: BlockExponent) -> usize
    requires { count ≤ 65536 }
    ensures { result ≡ count * 2 ^ blocks.e }
{
    count << blocks.e
}

// A child as an event of its parent's inner table.
pub(crate) fn inner_event(child: ChildNo) -> EventNo
    ensures { result.0 ≡ child.0 }
{
    EventNo(child.0)
}
