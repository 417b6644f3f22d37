//! The walk down the steps of a layout.

ghost use Rattle.std.specs.Prelude.{◌≡◌};
ghost use Rattle.std.specs.Iterator.{at_most};
ghost use Rattle.scheme.specs.Exponent.{exponent};
ghost use Rattle.block_layer.specs.Walk.{GivesStep, GivesPlaced, next_place};

use crate::cells::Layer;
use crate::steps::{PlacedStep, Step};
use scheme::{BlockExponent, EventCount, ParentExponent, Scheme, UNCOUNTED, exponent_of};

/// The steps of a layout, from some blocks down to single events.
#[derive(Drop)]
pub(crate) struct Steps<'a, S> {
    pub(crate) inner: &'a S,
    pub(crate) block: BlockExponent,
}

impl<'a, S: Scheme> Iterator for Steps<'a, S> {
    type Item = Step;

    ghost next_gives = { λ s r t. (t.inner ≡ s.inner) × GivesStep (S.Scheme.plan s.inner.now) s.block.e r t.block.e };

    ghost remaining = { λ s. at_most s.block.e };

    fn next(&mut self) -> Option<Step> {
        let parents = ParentExponent::new(self.block.e)?;
        let children = BlockExponent {
            e: self.inner.child_exponent(parents),
        };
        self.block = children;
        Some(Step {
            parents: parents.blocks,
            children,
        })
    }
}

/// The same, for a table of so many events, with the place where the cells of each step begin; 2^40 stands for that or more. The
/// cells of a step are counted only once the step after it is asked for, since a query goes no further than the step that it seeks.
#[derive(Drop)]
pub(crate) struct PlacedSteps<'a, S> {
    steps: Steps<'a, S>,
    events: EventCount,
    /// The step that was given last, none at first.
    last: Option<Step>,
    /// Where its cells begin; before the first step, where those of the first begin.
    at: u64,
}

impl<'a, S: Scheme> PlacedSteps<'a, S> {
    // Where the cells of the next step begin.
    fn next_at(&self) -> u64
        ensures { result ≡ next_place (S.Scheme.plan self.now.steps.inner.now) self.now.events.count self.now.at self.now.last }
    {
        let Some(step) = self.last else {
            return self.at;
        };
        let layer = Layer {
            inner: self.steps.inner,
            events: self.events,
        };
        UNCOUNTED.min(self.at.saturating_add(layer.step_cells(step)))
    }
}

impl<'a, S: Scheme> Iterator for PlacedSteps<'a, S> {
    type Item = PlacedStep;

    ghost next_gives = { λ s r t. (t.steps.inner ≡ s.steps.inner) × ((t.events ≡ s.events) × GivesPlaced (S.Scheme.plan s.steps.inner.now) s.events.count s.steps.block.e (next_place (S.Scheme.plan s.steps.inner.now) s.events.count s.at s.last) r t.steps.block.e (next_place (S.Scheme.plan s.steps.inner.now) s.events.count t.at t.last)) };

    ghost remaining = { λ s. at_most s.steps.block.e };

    fn next(&mut self) -> Option<PlacedStep> {
        let step = self.steps.next()?;
        self.at = self.next_at();
        self.last = Some(step);
        Some(PlacedStep {
            step,
            at: self.at as usize,
        })
    }
}

impl<'a, S: Scheme> Layer<'a, S> {
    // The steps of the layout of the table.
    pub(crate) fn steps(&self) -> Steps<'a, S>
        ensures { (result.inner ≡ self.now.inner) × (result.block.e ≡ exponent self.now.events.count) }
    {
        Steps {
            inner: self.inner,
            block: BlockExponent {
                e: exponent_of(self.events.count),
            },
        }
    }

    // The same, with their places: the cells of the first follow the items.
    pub(crate) fn placed_steps(&self) -> PlacedSteps<'a, S>
        ensures steps { (result.steps.inner ≡ self.now.inner) × (result.steps.block.e ≡ exponent self.now.events.count) }
        ensures place { (result.events ≡ self.now.events) × (next_place (S.Scheme.plan self.now.inner.now) self.now.events.count result.at result.last ≡ self.now.events.count) }
    {
        PlacedSteps {
            steps: self.steps(),
            events: self.events,
            last: None,
            at: u64::from(self.events.count),
        }
    }
}
