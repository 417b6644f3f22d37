//! Answers, traces and updates against a plain list.

use crate::sample::Random;
use anyhow::Context;
use index::{Built, Draft};
use kinds::chain_map::ChainMap;
use scheme::{Answer, EventNo, Piece, Scheme};
use semigroup::{Semigroup, product_of};
use std::alloc::Global;

/// How many random runs are asked for of a full day.
const RANDOM_RUNS: u32 = 100;

/// How many answers were checked, and how many were not what they should be.
#[derive(Default, Drop)]
pub(crate) struct Tally {
    days: u64,
    runs: u64,
    mismatches: u64,
}

impl Tally {
    pub(crate) fn tell(&self, rt: &HostRuntime, what: &str) -> anyhow::Result<()> {
        let Tally {
            days,
            runs,
            mismatches,
        } = self;
        println!(rt; "{what}: days {days}, runs {runs}, mismatches {mismatches}")?;
        Ok(())
    }

    fn day(&mut self) {
        self.days = self.days.saturating_add(1);
    }

    fn count(&mut self, right: bool) {
        self.runs = self.runs.saturating_add(1);
        if !right {
            self.mismatches = self.mismatches.saturating_add(1);
        }
    }
}

/// Two chain maps are the same if they send 0 and 1 to the same. Their numbers are read modulo a prime, so a derived
/// equality would tell apart maps that are the same.
fn same(a: ChainMap, b: ChainMap) -> bool {
    a.apply(0) == b.apply(0) && a.apply(1) == b.apply(1)
}

/// Whether the pieces follow one another from i to j.
fn follow(pieces: &[Piece], i: u32, j: u32) -> bool {
    let end = pieces.iter().try_fold(i, |next, piece| {
        (piece.first.0 == next && next <= piece.last.0).then(|| piece.last.0.saturating_add(1))
    });
    end == Some(j.saturating_add(1))
}

/// What the pieces' cells hold, combined.
fn drawn(table: &[ChainMap], pieces: &[Piece]) -> Option<ChainMap> {
    pieces
        .iter()
        .filter_map(|piece| table.get(piece.cell.0 as usize).copied())
        .reduce(|left, right| left.combine(right))
}

/// Whether an answer is the plain product, drawn from pieces that follow one another, no more than the trace has room for.
fn right(
    table: &[ChainMap],
    plain: Option<ChainMap>,
    answer: &Answer<ChainMap>,
    trace: &[Piece],
    (i, j): (u32, u32),
) -> bool {
    let count = (answer.combinations as usize).saturating_add(1);
    let is_answer = |product| same(product, answer.value);
    plain.is_some_and(is_answer)
        && trace.get(0..count).is_some_and(|pieces| {
            drawn(table, pieces).is_some_and(is_answer) && follow(pieces, i, j)
        })
}

/// An index over a table of a random day, and the day's plain list.
#[derive(Drop)]
struct Day<S> {
    built: Built<S>,
    items: Vec<ChainMap>,
    table: Vec<ChainMap>,
}

impl<S: Scheme> Day<S> {
    /// Asks for one run, and counts whether the answer is right.
    fn ask(&self, tally: &mut Tally, i: u32, j: u32) {
        let mut trace = [Piece::default(); 8];
        let end = (j as usize).saturating_add(1);
        let plain = self.items.get(i as usize..end).and_then(product_of);
        let answer = self
            .built
            .query(&self.table, EventNo(i), EventNo(j), &mut trace);
        tally.count(answer.is_ok_and(|answer| right(&self.table, plain, &answer, &trace, (i, j))));
    }

    /// Asks for every run of n events.
    fn ask_all(&self, tally: &mut Tally, n: u32) {
        for i in 0..n {
            for j in i..n {
                self.ask(tally, i, j);
            }
        }
    }

    /// Puts a random element in the place of an item, in the index and in the plain list.
    fn change(&mut self, random: &mut Random, tally: &mut Tally, p: u32) {
        let element = random.chain_map();
        let updated = self.built.update(&mut self.table, EventNo(p), element);
        if updated.is_err() {
            tally.count(false);
        }
        if let Some(item) = self.items.get_mut(p as usize) {
            *item = element;
        }
    }
}

/// Builds an index of n events over a random table.
fn build<S: Scheme + Drop>(
    alloc: Global,
    random: &mut Random,
    scheme: S,
    n: u32,
) -> anyhow::Result<Day<S>> {
    let draft = Draft::new(scheme, n).context("not drafted")?;
    let mut table: Vec<ChainMap> = (0..draft.cells())
        .map(|_| random.chain_map())
        .collect(alloc)?;
    let items = table.iter().copied().take(n as usize).collect(alloc)?;
    let built = draft
        .build(&mut table)
        .map_err(|refused| refused.fault)
        .context("not built")?;
    Ok(Day {
        built,
        items,
        table,
    })
}

/// Asks for every run of n events, changes every item, and asks for every run again.
pub(crate) fn every_run<S: Scheme + Drop>(
    alloc: Global,
    random: &mut Random,
    tally: &mut Tally,
    scheme: S,
    n: u32,
) -> anyhow::Result<()> {
    let mut day = build(alloc, random, scheme, n)?;
    tally.day();
    day.ask_all(tally, n);
    for p in 0..n {
        day.change(random, tally, p);
    }
    day.ask_all(tally, n);
    Ok(())
}

/// Asks for random runs of n events, and changes a random item after each.
pub(crate) fn random_runs<S: Scheme + Drop>(
    alloc: Global,
    random: &mut Random,
    tally: &mut Tally,
    scheme: S,
    n: u32,
) -> anyhow::Result<()> {
    let mut day = build(alloc, random, scheme, n)?;
    tally.day();
    for _ in 0..RANDOM_RUNS {
        let j = random.below(n);
        let i = random.below(j.saturating_add(1));
        day.ask(tally, i, j);
        let p = random.below(n);
        day.change(random, tally, p);
    }
    day.ask(tally, 0, n.saturating_sub(1));
    Ok(())
}
