//! Days made by a random number generator.

use kinds::chain_map::ChainMap;
use kinds::kind::Entry;
use records::record::{Code, Event};

/// A linear congruential generator.
#[derive(Drop)]
pub(crate) struct Random {
    state: u64,
}

impl Random {
    pub(crate) fn new(seed: u64) -> Random {
        Random { state: seed }
    }

    /// The next number, of 32 bits.
    pub(crate) fn next_u32(&mut self) -> u32 {
        let next = self.state.wrapping_mul(6_364_136_223_846_793_005);
        self.state = next.wrapping_add(1_442_695_040_888_963_407);
        (self.state >> 32) as u32
    }

    /// A number below a limit, or 0.
    pub(crate) fn below(&mut self, limit: u32) -> u32 {
        let number = self.next_u32();
        if limit == 0 { 0 } else { number % limit }
    }

    /// The chain map of an event with a random factor and quantity.
    pub(crate) fn chain_map(&mut self) -> ChainMap {
        let quantity = self.next_u32();
        let event = Event {
            time: 0,
            code: 0,
            price_flag: 1,
            participant: 0,
            price: 0,
            quantity,
        };
        let code = Code {
            phase_map: 0,
            effect: None,
            factor: (self.next_u32() & 0xffff) as u16,
            reserved: 0,
        };
        ChainMap::from(Entry {
            number: 0,
            event,
            code,
        })
    }
}
