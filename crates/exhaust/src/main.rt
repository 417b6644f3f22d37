//! Brute force: every run of small days and random runs of full ones, each answer against the plain product.

#![tactic(auto)]

mod check;
mod sample;

use basic_schemes::flat::Flat;
use basic_schemes::halving::Halving;
use check::Tally;
use sample::Random;
use scheme::Scheme;

/// The most events of a small day.
const SMALL: u32 = 40;

/// Every run of every small day, under one scheme.
fn small_days<S: Scheme + Copy>(
    rt: &HostRuntime,
    random: &mut Random,
    what: &str,
    scheme: S,
) -> anyhow::Result<()> {
    let mut tally = Tally::default();
    for n in 1..=SMALL {
        check::every_run(rt.alloc(), random, &mut tally, scheme, n)?;
    }
    tally.tell(rt, what)
}

/// Random runs of the fullest days.
fn full_days(rt: &HostRuntime, random: &mut Random) -> anyhow::Result<()> {
    let mut tally = Tally::default();
    check::random_runs(rt.alloc(), random, &mut tally, Flat, 1_000)?;
    check::random_runs(rt.alloc(), random, &mut tally, Halving, 1_000)?;
    check::random_runs(rt.alloc(), random, &mut tally, Halving, 65_535)?;
    check::random_runs(rt.alloc(), random, &mut tally, Halving, 65_536)?;
    tally.tell(rt, "full days")
}

fn run(rt: &HostRuntime) -> anyhow::Result<()> {
    let mut random = Random::new(1);
    small_days(rt, &mut random, "flat", Flat)?;
    small_days(rt, &mut random, "halving", Halving)?;
    full_days(rt, &mut random)
}

fn main(rt: HostRuntime) -> anyhow::Result<()> {
    run(&rt)
}
