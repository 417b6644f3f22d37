//! Phase maps: which phase is reached from each of the eight.

ghost use Rattle.std.specs.Prelude.{◌≡◌, ◌+◌, ◌%◌, ◌<◌};
ghost use Rattle.kinds.specs.Phases.{sends, composed, phases_of, Passes, phase_text};
ghost use Rattle.kinds.specs.Phased.{composed_assoc, passes_one, passes_more};
ghost use Rattle.kinds.specs.Runs.{product_means};

use crate::kind::{Entry, Kind};
use decimal::Text;
use semigroup::Semigroup;

/// A map of the phases 0 to 7, packed as in the record of a code: bits 3q to 3q + 2 are the phase reached from q. Higher
/// bits than these 24 are not read.
#[derive(Clone, Copy)]
pub struct PhaseMap {
    bits: u32,
}

impl PhaseMap {
    /// The phase reached from another, of which the three lowest bits are read.
    pub fn reached(self, from: u8) -> u8
        ensures value { result ≡ sends self (from % 8) }
        ensures phase { result < 8 }
    {
        let from = u32::from(from % 8);
        ((self.bits >> (3 * from)) % 8) as u8
    }

    /// The digit of the phase reached from another.
    fn digit(self, from: u8) -> u8
        ensures value { result ≡ 48 + sends self (from % 8) }
    {
        b'0' + self.reached(from)
    }
}

impl Semigroup for PhaseMap {
    ghost op = { composed };

    ghost associative = { composed_assoc };

    fn combine(self, right: PhaseMap) -> PhaseMap {
        let bits = (0..8).rev().fold(0, |bits, from| {
            bits << 3 | u32::from(right.reached(self.reached(from)))
        });
        PhaseMap { bits }
    }
}

/// The element that an event gives.
impl From<Entry> for PhaseMap {
    ghost from_gives = { λ e m. m ≡ phases_of e };

    fn from(entry: Entry) -> PhaseMap {
        PhaseMap {
            bits: entry.code.phase_map,
        }
    }
}

impl Kind for PhaseMap {
    const LETTER: char = 'P';

    ghost LETTER = { 80 };

    ghost element = { phases_of };

    ghost Means = { Passes };

    ghost text = { phase_text };

    ghost made = { λ e m h. h };

    ghost meaning = { product_means composed phases_of Passes passes_one passes_more };

    fn put_answer(self, out: &mut [u8], at: usize) -> Option<usize> {
        let digits = [0, 1, 2, 3, 4, 5, 6, 7].map(|from| self.digit(from));
        digits.as_slice().put(out, at)
    }
}
