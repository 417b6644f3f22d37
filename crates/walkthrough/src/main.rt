//! An index on the example day, step by step: drafted, refused, built, queried, corrected and queried again. It asks for
//! chain maps, under the flat scheme and then under halving.

#![tactic(auto)]

mod steps;

use anyhow::Context;
use basic_schemes::flat::Flat;
use basic_schemes::halving::Halving;
use day::entries_of;
use index::Draft;
use kinds::chain_map::ChainMap;
use kinds::kind::{Entry, elements_of};
use scheme::Scheme;
use session::file::{SessionFile, open};
use std::alloc::AllocError;
use std::fs;
use steps::Desk;

/// Event 1 as it should have been: with code 0, whose factor is 1.
fn corrected_entry(file: &SessionFile, entries: &[Entry]) -> Option<Entry> {
    let entry = *entries.get(1)?;
    let code = file.code_at(0)?;
    Some(Entry { code, ..entry })
}

/// A table of so many cells, whose first cells are the elements of the entries.
fn table_of(rt: &HostRuntime, entries: &[Entry], cells: u64) -> Result<Vec<ChainMap>, AllocError> {
    let mut table = elements_of::<ChainMap>(rt.alloc(), entries)?;
    if let Some(first) = table.first().copied() {
        let len = table.len().max(cells as usize);
        table.resize(len, first)?;
    }
    Ok(table)
}

/// Drafts an index under a scheme, builds it, asks, corrects event 1 and asks again.
fn walk<S: Scheme + Drop>(
    rt: &HostRuntime,
    name: &str,
    scheme: S,
    n: u32,
    entries: &[Entry],
    corrected: ChainMap,
) -> anyhow::Result<()> {
    let draft = Draft::new(scheme, n).context("not drafted")?;
    let cells = draft.cells();
    println!(rt; "{name}: drafted for {n} events, {cells} cells")?;
    let mut table = table_of(rt, entries, cells)?;
    let draft = steps::build_short(rt, draft, &mut table)?;
    let built = draft
        .build(&mut table)
        .map_err(|refused| refused.fault)
        .context("not built")?;
    println!(rt; "built over {} cells", table.len())?;
    let mut desk = Desk { rt, built, table };
    desk.queries()?;
    desk.correct(1, corrected)?;
    desk.correct(5, corrected)?;
    desk.queries()
}

fn run(rt: &HostRuntime) -> anyhow::Result<()> {
    let bytes = fs::read(rt, "day.ses")?;
    let file = open(&bytes).ok().context("day.ses is unusable")?;
    let entries = entries_of(rt.alloc(), &file)?;
    let entry = corrected_entry(&file, &entries).context("day.ses has only one event")?;
    let n = file.header().events;
    let corrected = ChainMap::from(entry);
    steps::draft_of_none(rt)?;
    walk(rt, "flat", Flat, n, &entries, corrected)?;
    walk(rt, "halving", Halving, n, &entries, corrected)
}

fn main(rt: HostRuntime) -> anyhow::Result<()> {
    run(&rt)
}
