//! Lists the session file `day.ses` of the current folder: its header, its events, a line each, and the products of the
//! whole day. A missing file is an empty one.
#![tactic(auto)]

use day::entries_of;
use kinds::chain_map::ChainMap;
use kinds::extreme::Extreme;
use kinds::halt_summary::HaltSummary;
use kinds::kind::{AnswerText, Entry, Kind, elements_of};
use kinds::phase_map::PhaseMap;
use listing::line::{EventLine, HeaderLine};
use records::record::Event;
use semigroup::product_of;
use session::file::{SessionFile, open};
use std::alloc::Global;
use std::io::{BufWriter, ErrorKind, Write};
use std::rt::Files;
use std::{fs, io};

/// The bytes of the day, none where there is no such file.
fn read_day<R: Files + AllocGlobal>(rt: &R) -> io::Result<Vec<u8>> {
    match fs::read(rt, "day.ses") {
        Err(error) if error.kind() == ErrorKind::NotFound => Ok(Vec::new(rt.alloc())),
        outcome => outcome,
    }
}

/// Writes a line for each event.
fn list_events(out: &mut impl Write, file: &SessionFile) -> io::Result<()> {
    for record in file.events() {
        let event = Event::decode(record.bytes);
        let code = file.code_at(usize::from(event.code));
        let line = EventLine {
            number: record.place,
            event,
            effect: code.and_then(|code| code.effect),
        };
        writeln!(out, "{line}")?;
    }
    Ok(())
}

/// Writes a kind's name and the text of the whole day's product.
fn list_product<K: Kind>(
    heap: Global,
    out: &mut impl Write,
    name: &str,
    entries: &[Entry],
) -> anyhow::Result<()> {
    let elements = elements_of::<K>(heap, entries)?;
    if let Some(product) = product_of(&elements) {
        let text = AnswerText(product);
        writeln!(out, "{name} {text}")?;
    }
    Ok(())
}

/// Writes a line for the product of each kind.
fn list_products(heap: Global, out: &mut impl Write, file: &SessionFile) -> anyhow::Result<()> {
    let entries = entries_of(heap, file)?;
    list_product::<PhaseMap>(heap, out, "phase map", &entries)?;
    list_product::<Extreme>(heap, out, "extreme", &entries)?;
    list_product::<HaltSummary>(heap, out, "halt summary", &entries)?;
    list_product::<ChainMap>(heap, out, "chain map", &entries)
}

fn run<R: Files + Print + AllocGlobal>(rt: &R) -> anyhow::Result<()> {
    let heap = rt.alloc();
    let bytes = read_day(rt)?;
    let mut out = BufWriter::new(heap, io::writer(rt))?;
    match open(&bytes) {
        Ok(file) => {
            let line = HeaderLine {
                header: file.header(),
            };
            writeln!(out, "{line}")?;
            list_events(&mut out, &file)?;
            list_products(heap, &mut out, &file)?;
        }
        Err(fault) => writeln!(out, "day.ses is unusable: {fault}")?,
    }
    out.flush()?;
    Ok(())
}

fn main(rt: HostRuntime) -> anyhow::Result<()> {
    run(&rt)
}
