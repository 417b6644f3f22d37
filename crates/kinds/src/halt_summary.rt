//! Halt summaries: how many resumptions of a run met no open halt, and how many halts are open at its end.

ghost use Rattle.std.specs.Prelude.{◌≡◌, ◌+◌, ◌≤◌, IfSome};
ghost use Rattle.kinds.specs.Halts.{counts, summed_up, summary_of, Tallies, halt_text};
ghost use Rattle.std.proofs.Common.{rules};
ghost use Rattle.kinds.specs.Runs.{product_means};
ghost use Rattle.kinds.specs.Clerks.{tallies_one, tallies_more};

use crate::kind::{Entry, Kind};
use decimal::Text;
use records::record::Effect;
use semigroup::Semigroup;

/// The most events that a summary counts.
const LONGEST: u32 = 65_536;

/// What a run of events counts up to.
#[derive(Clone, Copy, Debug, PartialEq, Eq)]
pub struct HaltCounts {
    pub events: u32,
    /// Resumptions that met no open halt.
    pub unmatched: u32,
    /// Halts that are open at the end.
    pub pending: u32,
}

/// The counts of a run, or that it is too long to count. Counts that no run of up to 65,536 events has are read as
/// over-long.
#[derive(Clone, Copy)]
pub struct HaltSummary {
    /// None of an over-long run. Any counts may stand here.
    stored: Option<HaltCounts>,
}

impl HaltSummary {
    /// The counts, or none if the run is over-long.
    pub fn counts(self) -> Option<HaltCounts>
        ensures value { result ≡ counts self.stored }
        ensures bounded { IfSome result (λ k. (k.unmatched + k.pending ≤ k.events) × (k.events ≤ 65536)) }
    {
        self.stored.filter(|k| {
            k.events <= LONGEST && k.unmatched <= k.events && k.pending <= k.events - k.unmatched
        })
    }
}

impl Semigroup for HaltSummary {
    ghost op = { summed_up };

    ghost associative = { Prim.search rules };

    fn combine(self, right: HaltSummary) -> HaltSummary {
        let stored = match (self.counts(), right.counts()) {
            (Some(left), Some(later)) if left.events + later.events <= LONGEST => {
                let met = left.pending.min(later.unmatched);
                Some(HaltCounts {
                    events: left.events + later.events,
                    unmatched: left.unmatched + later.unmatched - met,
                    pending: left.pending + later.pending - met,
                })
            }
            _ => None,
        };
        HaltSummary { stored }
    }
}

/// The element that an event gives.
impl From<Entry> for HaltSummary {
    ghost from_gives = { λ e m. m ≡ summary_of e };

    fn from(entry: Entry) -> HaltSummary {
        let (unmatched, pending) = match entry.code.effect {
            Some(Effect::Halt) => (0, 1),
            Some(Effect::Resumption) => (1, 0),
            Some(Effect::Nothing) | None => (0, 0),
        };
        HaltSummary {
            stored: Some(HaltCounts {
                events: 1,
                unmatched,
                pending,
            }),
        }
    }
}

impl Kind for HaltSummary {
    const LETTER: char = 'B';

    ghost LETTER = { 66 };

    ghost element = { summary_of };

    ghost Means = { Tallies };

    ghost text = { halt_text };

    ghost made = { λ e m h. h };

    ghost meaning = { product_means summed_up summary_of Tallies tallies_one tallies_more };

    fn put_answer(self, out: &mut [u8], at: usize) -> Option<usize> {
        match self.counts() {
            None => "over-long".put(out, at),
            Some(k) => (k.unmatched, (" ", k.pending)).put(out, at),
        }
    }
}
