//! Extremes: the first event at the highest price.

ghost use Rattle.std.specs.Prelude.{◌≡◌};
ghost use Rattle.kinds.specs.Highest.{higher_of, extreme_of, Tops, extreme_text};
ghost use Rattle.std.proofs.Common.{rules};
ghost use Rattle.kinds.specs.Runs.{product_means};
ghost use Rattle.kinds.specs.Tops.{tops_one, tops_more};

use crate::kind::{Entry, Kind};
use decimal::Text;
use semigroup::Semigroup;

/// A price and the number of its event.
#[derive(Clone, Copy, Debug, PartialEq, Eq)]
pub struct Best {
    pub price: i32,
    pub event: u16,
}

/// The first event at the highest price of a run, or none where no event has a price.
#[derive(Clone, Copy, Debug, PartialEq, Eq)]
pub struct Extreme {
    best: Option<Best>,
}

impl Extreme {
    /// The price and its event.
    pub fn best(self) -> Option<Best>
        ensures value { result ≡ self.best }
    {
        self.best
    }
}

impl Semigroup for Extreme {
    ghost op = { higher_of };

    ghost associative = { Prim.search rules };

    fn combine(self, right: Extreme) -> Extreme {
        match (self.best, right.best) {
            (Some(left), Some(later)) if left.price >= later.price => self,
            (Some(_), None) => self,
            _ => right,
        }
    }
}

/// The element that an event gives.
impl From<Entry> for Extreme {
    ghost from_gives = { λ e m. m ≡ extreme_of e };

    fn from(entry: Entry) -> Extreme {
        let best = entry.event.trade().map(|trade| Best {
            price: trade.price,
            event: entry.number,
        });
        Extreme { best }
    }
}

impl Kind for Extreme {
    const LETTER: char = 'H';

    ghost LETTER = { 72 };

    ghost element = { extreme_of };

    ghost Means = { Tops };

    ghost text = { extreme_text };

    ghost made = { λ e m h. h };

    ghost meaning = { product_means higher_of extreme_of Tops tops_one tops_more };

    fn put_answer(self, out: &mut [u8], at: usize) -> Option<usize> {
        match self.best {
            None => "none".put(out, at),
            Some(best) => (best.price, (" at ", u32::from(best.event))).put(out, at),
        }
    }
}
