//! How a reader is made, and what it hands out.

ghost use Rattle.std.specs.Prelude.{◌≡◌, ◌+◌, ◌-◌, ◌*◌, ◌≤◌, length};
ghost use Rattle.records.specs.Parts.{fits, part};
ghost use Rattle.records.specs.Reading.{Over, Answer, Next, HandsOut};
ghost use Rattle.std.specs.Iterator.{at_most};

use super::{Record, Records};
use crate::array::array_at;

/// Whether `count` records of `len` bytes from `start` on lie within the file.
fn lie_within(file: &[u8], len: usize, start: usize, count: usize) -> bool
    ensures test { result ≡ fits len file.now start count }
{
    len.checked_mul(count)
        .and_then(|size| size.checked_add(start))
        .is_some_and(|end| end <= file.len())
}

impl<'a, const LEN: usize> Records<'a, LEN> {
    /// A reader of `count` records from `start` on: of all of them if they lie within the file, else of none.
    #[tactic(auto, using(crate::proofs::Calls::hands_out))]
    pub fn over(file: &'a [u8], start: usize, count: usize) -> Records<'a, LEN>
        ensures reader { Over LEN file.now start count result }
        ensures order { HandsOut LEN result }
    {
        let (start, count) = if lie_within(file, LEN, start, count) {
            (start, count)
        } else {
            (0, 0)
        };
        Records {
            file,
            start,
            count,
            at: 0,
        }
    }

    /// The record at a place, or none past the last.
    #[tactic(auto, unfolding(crate::specs::Parts::part))]
    pub fn get(&self, place: usize) -> Option<Record<'a, LEN>>
        ensures answer { Answer LEN self.now place result }
    {
        if place >= self.count {
            return None;
        }
        let bytes = array_at(self.file, self.start + LEN * place);
        Some(Record { bytes, place })
    }
}

impl<'a, const LEN: usize> Iterator for Records<'a, LEN> {
    type Item = Record<'a, LEN>;

    ghost next_gives = { λ s r t. Next LEN s r t };

    ghost remaining = { λ s. at_most (s.count - s.at) };

    fn next(&mut self) -> Option<Record<'a, LEN>> {
        let record = self.get(self.at)?;
        self.at += 1;
        Some(record)
    }
}
