//! Queries: the step in which the ends of a run part, and the pieces there.

ghost use Rattle.std.specs.Prelude.{◌≡◌, ◌+◌, ◌-◌, ◌*◌, ◌^◌, ◌<◌, ◌≤◌, length};
ghost use Rattle.scheme.specs.Calls.{Drawn};
ghost use Rattle.layer_parts.specs.Parts.{step_part, HasAt, LiftedAt};
ghost use Rattle.layer_parts.specs.Writes.{suffix_piece, prefix_piece};
ghost use Rattle.layer_parts.specs.Layout.{between, moved, step_pieces, layer_part, Apart};
ghost use Rattle.block_layer.specs.Steps.{StepFits, Parting, parting_start};

use crate::cells::{Layer, Parent};
use crate::steps::{PlacedStep, Step};
use scheme::{Answer, CellNo, EventNo, EventRun, Piece, Scheme};
use semigroup::Semigroup;

impl Parent {
    // What the inner table gives for a run of the children, with the trace turned.
    fn query<S: Scheme, T: Semigroup>(
        self,
        inner: &S,
        table: &[T],
        run: EventRun,
        trace: &mut [Piece],
    ) -> Answer<T>
        requires run { run.events.count ≡ self.children.count }
        requires place { (self.at + ((S.Scheme.plan inner.now).part self.children.count).size ≤ length table.now) × ((self.at + ((S.Scheme.plan inner.now).part self.children.count).size < 2 ^ 40) × (LiftedAt self.events.count self.at self.start.0 (2 ^ self.block.e) ((S.Scheme.plan inner.now).part self.children.count) (layer_part (S.Scheme.plan inner.now) self.events.count))) }
        requires trace { length ((S.Scheme.plan inner.now).pieces self.children.count run.first.0 (run.last.0 + 1)) ≤ length trace.old }
        ensures { Drawn T.Semigroup.op (layer_part (S.Scheme.plan inner.now) self.events.count) (moved self.at ((S.Scheme.plan inner.now).pieces self.children.count run.first.0 (run.last.0 + 1))) table.now trace.old trace.new result }
    {
        let answer = inner.query(&table[self.at..], run, trace);
        let pieces = answer.combinations as usize + 1;
        self.turn_pieces(&mut trace[..pieces]);
        answer
    }
}

impl<S: Scheme> Layer<'_, S> {
    // The step in which i and j part, without its place, for which the cells of the steps before would have to be counted.
    pub(crate) fn parting(&self, i: EventNo, j: EventNo) -> Step
        requires run { (i.0 < j.0) × (j.0 < self.now.events.count) }
        ensures { Parting (S.Scheme.plan self.now.inner.now) self.now.events.count i.0 j.0 result.parents.e result.children.e }
    {
        self.steps().find(|step| step.parts(i, j)).unwrap()
    }

    // That step, with the place where its cells begin.
    pub(crate) fn parting_step(&self, i: EventNo, j: EventNo) -> PlacedStep
        requires run { (i.0 < j.0) × (j.0 < self.now.events.count) }
        requires small { (layer_part (S.Scheme.plan self.now.inner.now) self.now.events.count).size < 2 ^ 40 }
        ensures parting { Parting (S.Scheme.plan self.now.inner.now) self.now.events.count i.0 j.0 result.step.parents.e result.step.children.e }
        ensures placed { result.at ≡ parting_start (S.Scheme.plan self.now.inner.now) self.now.events.count i.0 j.0 }
    {
        self.placed_steps()
            .find(|placed| placed.step.parts(i, j))
            .unwrap()
    }

    // How many pieces the inner scheme has for the children strictly between those of i and of j.
    pub(crate) fn between_count(&self, step: Step, i: EventNo, j: EventNo) -> u32
        requires apart { Apart self.now.events.count (2 ^ step.parents.e) (2 ^ step.children.e) i.0 j.0 }
        ensures counted { result ≡ length (between (S.Scheme.plan self.now.inner.now) self.now.events.count (2 ^ step.parents.e) (2 ^ step.children.e) i.0 j.0) }
        ensures few { result ≤ 65536 }
    {
        let Some(run) = step.between(self.events, i, j) else {
            return 0;
        };
        self.inner.piece_count(run)
    }

    // The pieces of i and of j in their step: i's suffix cell, and j's prefix cell.
    fn end_pieces(&self, placed: PlacedStep, i: EventNo, j: EventNo) -> (Piece, Piece)
        requires place { placed.at < 2 ^ 40 }
        requires events { (i.0 < self.now.events.count) × (j.0 < self.now.events.count) }
        ensures left { result.0 ≡ suffix_piece self.now.events.count (2 ^ placed.step.children.e) placed.at i.0 }
        ensures right { result.1 ≡ prefix_piece (2 ^ placed.step.children.e) placed.at j.0 }
    {
        let PlacedStep { step, at } = placed;
        let count = self.events.count as usize;
        let end = step.children.end(self.events, i.0 as usize);
        let left = Piece {
            cell: CellNo((at + count + i.0 as usize) as u64),
            first: i,
            last: EventNo((end - 1) as u32),
        };
        let right = Piece {
            cell: CellNo((at + j.0 as usize) as u64),
            first: EventNo(step.children.start(j.0 as usize) as u32),
            last: j,
        };
        (left, right)
    }

    // What the pieces of a step hold for the run from i to j, combined left to right.
    pub(crate) fn query_step<T: Semigroup>(
        &self,
        table: &[T],
        placed: PlacedStep,
        i: EventNo,
        j: EventNo,
        trace: &mut [Piece],
    ) -> Answer<T>
        requires run { (i.0 < j.0) × (j.0 < self.now.events.count) }
        requires step { StepFits (S.Scheme.plan self.now.inner.now) self.now.events.count placed.step.parents.e placed.step.children.e placed.at (length table.now) }
        requires placed { HasAt placed.at (step_part (S.Scheme.plan self.now.inner.now).part self.now.events.count (2 ^ placed.step.parents.e) (2 ^ placed.step.children.e)) (layer_part (S.Scheme.plan self.now.inner.now) self.now.events.count) }
        requires apart { Apart self.now.events.count (2 ^ placed.step.parents.e) (2 ^ placed.step.children.e) i.0 j.0 }
        requires trace { length (between (S.Scheme.plan self.now.inner.now) self.now.events.count (2 ^ placed.step.parents.e) (2 ^ placed.step.children.e) i.0 j.0) + 2 ≤ length trace.old }
        ensures { Drawn T.Semigroup.op (layer_part (S.Scheme.plan self.now.inner.now) self.now.events.count) (moved placed.at (step_pieces (S.Scheme.plan self.now.inner.now) self.now.events.count (2 ^ placed.step.parents.e) (2 ^ placed.step.children.e) i.0 j.0)) table.now trace.old trace.new result }
    {
        let (first_piece, last_piece) = self.end_pieces(placed, i, j);
        let left = table[first_piece.cell.0 as usize];
        let right = table[last_piece.cell.0 as usize];
        trace[0] = first_piece;
        let Some(run) = placed.step.between(self.events, i, j) else {
            trace[1] = last_piece;
            return Answer {
                value: left.combine(right),
                combinations: 1,
            };
        };
        let parent = self.parent_of(placed, i);
        let middle = parent.query(self.inner, table, run, &mut trace[1..]);
        let combinations = middle.combinations + 2;
        trace[combinations as usize] = last_piece;
        let value = left.combine(middle.value).combine(right);
        Answer {
            value,
            combinations,
        }
    }
}
