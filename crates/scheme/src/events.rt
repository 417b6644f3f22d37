//! Numbers of events, runs of events and exponents of blocks, each within the limits that every table keeps.

ghost use Rattle.std.specs.Prelude.{◌≡◌, ◌^◌, ◌<◌, ◌≤◌, ◌⊎◌, MatchOption};
ghost use Rattle.scheme.specs.Calls.{Events, Run};
ghost use Rattle.scheme.specs.Blocks.{start_of_block, end_of_block};

use crate::EventNo;

/// The most events that an index can have.
pub const MAX_EVENTS: u32 = 65_536;

/// The greatest exponent that a block can have: 2^16 is the most events.
const MAX_EXPONENT: u32 = 16;

/// A number of events that an index can have, from 1 to 65,536.
#[derive(Clone, Copy, Debug, PartialEq, Eq)]
pub struct EventCount {
    pub count: u32,
    ghost counted: { Events count },
}

impl EventCount {
    /// That number of events, if an index can have so many.
    pub fn new(count: u32) -> Option<EventCount>
        ensures made { MatchOption result ((count < 1) ⊎ (65536 < count)) (λ events. events.count ≡ count) }
    {
        if count < 1 || count > MAX_EVENTS {
            return None;
        }
        Some(EventCount { count })
    }
}

/// A run of an index's events: from `first` to `last`, both in it.
#[derive(Clone, Copy, Debug, PartialEq, Eq)]
pub struct EventRun {
    pub events: EventCount,
    pub first: EventNo,
    pub last: EventNo,
    ghost lies: { Run events.count first.0 last.0 },
}

impl EventRun {
    /// The run from `first` to `last`, if it does not end before it begins, or past the last event.
    pub fn new(events: EventCount, first: EventNo, last: EventNo) -> Option<EventRun>
        ensures made { MatchOption result ((last.0 < first.0) ⊎ (events.count ≤ last.0)) (λ run. (run.events ≡ events) × ((run.first ≡ first) × (run.last ≡ last))) }
    {
        if last < first || events.count <= last.0 {
            return None;
        }
        Some(EventRun {
            events,
            first,
            last,
        })
    }
}

/// The exponent e of blocks of 2^e events, from 0 to 16. The blocks follow one another from event 0 on.
#[derive(Clone, Copy, Debug, PartialEq, Eq)]
pub struct BlockExponent {
    pub e: u32,
    ghost few: { e ≤ 16 },
}

impl BlockExponent {
    /// That exponent, if no block would have more events than an index.
    pub fn new(e: u32) -> Option<BlockExponent>
        ensures made { MatchOption result (16 < e) (λ blocks. blocks.e ≡ e) }
    {
        if e > MAX_EXPONENT {
            return None;
        }
        Some(BlockExponent { e })
    }

    /// How many events a block has that is not cut.
    pub fn width(self) -> u32
        ensures value { result ≡ 2 ^ self.e }
    {
        1 << self.e
    }

    /// Where the block begins that p is in.
    pub fn start(self, p: usize) -> usize
        ensures value { result ≡ start_of_block (2 ^ self.e) p }
        ensures within { result ≤ p }
    {
        (p >> self.e) << self.e
    }

    /// Where the block ends that p is in, or where the events end, if that comes before.
    pub fn end(self, events: EventCount, p: usize) -> usize
        ensures value { result ≡ end_of_block events.count (2 ^ self.e) p }
        ensures within { p < events.count → (p < result) × (result ≤ events.count) }
    {
        let end = self.start(p).saturating_add(self.width() as usize);
        end.min(events.count as usize)
    }
}

/// The exponent of blocks that are cut into children, from 1 to 16: blocks of one event have none.
#[derive(Clone, Copy, Debug, PartialEq, Eq)]
pub struct ParentExponent {
    pub blocks: BlockExponent,
    ghost cut: { 0 < blocks.e },
}

impl ParentExponent {
    /// That exponent, if blocks of 2^e events are cut into children.
    pub fn new(e: u32) -> Option<ParentExponent>
        ensures made { MatchOption result ((e < 1) ⊎ (16 < e)) (λ parents. parents.blocks.e ≡ e) }
    {
        if e == 0 {
            return None;
        }
        let blocks = BlockExponent::new(e)?;
        Some(ParentExponent { blocks })
    }
}
