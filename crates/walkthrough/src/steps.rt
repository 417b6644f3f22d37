//! The steps, each with a line that says what happened.

use anyhow::Context;
use basic_schemes::flat::Flat;
use index::{Built, Draft, IndexFault, Refused};
use kinds::chain_map::ChainMap;
use kinds::kind::AnswerText;
use scheme::{Answer, EventNo, Piece, Scheme};

fn tell_refusal(rt: &HostRuntime, what: &str, fault: IndexFault) -> anyhow::Result<()> {
    println!(rt; "{what}: refused {} at {}", fault.number(), fault.place())?;
    Ok(())
}

/// A draft of no events, which is refused.
pub(crate) fn draft_of_none(rt: &HostRuntime) -> anyhow::Result<()> {
    let fault = Draft::new(Flat, 0).err().context("drafted with no events")?;
    tell_refusal(rt, "a draft of no events", fault)
}

/// A build over a table that lacks its last cell, which hands the draft back.
pub(crate) fn build_short<S: Scheme + Drop>(
    rt: &HostRuntime,
    draft: Draft<S>,
    table: &mut [ChainMap],
) -> anyhow::Result<Draft<S>> {
    let short = table.len().saturating_sub(1);
    let Refused { fault, draft } = draft
        .build(&mut table[..short])
        .err()
        .context("built over a short table")?;
    tell_refusal(rt, "a build over a cell too few", fault)?;
    Ok(draft)
}

/// A built index at work: where its lines go, and its table.
#[derive(Drop)]
pub(crate) struct Desk<'a, S> {
    pub(crate) rt: &'a HostRuntime,
    pub(crate) built: Built<S>,
    pub(crate) table: Vec<ChainMap>,
}

impl<'a, S: Scheme> Desk<'a, S> {
    /// Prints an answer and the pieces that it was drawn from.
    fn tell_answer(
        &self,
        what: &str,
        answer: Answer<ChainMap>,
        trace: &[Piece],
    ) -> anyhow::Result<()> {
        let text = AnswerText(answer.value);
        println!(self.rt; "{what} = {text} by {}", answer.combinations)?;
        let pieces = (answer.combinations as usize).saturating_add(1);
        for Piece { cell, first, last } in trace.iter().take(pieces) {
            println!(self.rt;
                "    from cell {}, events {} to {}",
                cell.0, first.0, last.0
            )?;
        }
        Ok(())
    }

    /// Asks for a run, with so much room for the trace.
    fn ask(&self, (i, j): (u32, u32), trace: &mut [Piece]) -> anyhow::Result<()> {
        let what = format!(in self.rt.alloc(); "C {i} {j}")?;
        match self.built.query(&self.table, EventNo(i), EventNo(j), trace) {
            Ok(answer) => self.tell_answer(&what, answer, trace),
            Err(fault) => tell_refusal(self.rt, &what, fault),
        }
    }

    /// Some queries, the last two of which are refused: a run past the last event, and a trace with no room.
    pub(crate) fn queries(&self) -> anyhow::Result<()> {
        let mut trace = [Piece::default(); 4];
        for run in [(0, 2), (0, 4), (3, 3), (3, 5)] {
            self.ask(run, &mut trace)?;
        }
        self.ask((0, 2), &mut [])
    }

    /// Puts another element in the place of an event's.
    pub(crate) fn correct(&mut self, p: u32, element: ChainMap) -> anyhow::Result<()> {
        let what = format!(in self.rt.alloc(); "correction of event {p}")?;
        match self.built.update(&mut self.table, EventNo(p), element) {
            Ok(()) => println!(self.rt; "{what}: done")?,
            Err(fault) => tell_refusal(self.rt, &what, fault)?,
        }
        Ok(())
    }
}
