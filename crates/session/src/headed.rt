//! A file whose header is right, and the checks of its records. Each goes over the whole file before the next begins, and
//! counts on those before it.

ghost use Rattle.std.specs.Prelude.{◌≡◌, true, MatchOption, MatchResult};
ghost use Rattle.std.specs.Coded.{Coded-set};
ghost use Rattle.records.specs.Fields.{header_of};
ghost use Rattle.session.specs.Rules.{GoodCode, GoodEvent, CodesGood, EventsGood, TimesGood, WellFormed};
ghost use Rattle.session.specs.Computed.{headed?};
ghost use Rattle.session.specs.First.{Least, First};

use crate::fault::FileFault;
use crate::sections::{codes_of, events_of};
use records::record::{Code, Event, Header};

/// A file that keeps rules 1 to 4, as their tests say.
#[derive(Clone, Copy)]
pub(crate) struct HeadedFile<'a> {
    pub(crate) bytes: &'a [u8],
    pub(crate) header: Header,
    ghost read: { header ≡ header_of bytes.now } by { Coded-set header-code header (header_of bytes.now) },
    ghost headed: { headed? bytes.now ≡ true },
}

// Codes and events are checked apart: a check of both would be told where they lie, what is lawful and which fault is due.
#[tactic(auto, using(crate::proofs::Decided::headed_decided))]
impl HeadedFile<'_> {
    /// The place of the first bad code.
    fn bad_code(&self) -> Option<usize>
        ensures first { MatchOption result (CodesGood self.now.bytes.now) (Least (GoodCode self.now.bytes.now) (header_of self.now.bytes.now).codes) }
    {
        let mut codes = codes_of(self.bytes, &self.header);
        codes.position(|record| !Code::decode(record.bytes).is_lawful())
    }

    /// The place of the first bad event.
    fn bad_event(&self) -> Option<usize>
        ensures first { MatchOption result (EventsGood self.now.bytes.now) (Least (GoodEvent self.now.bytes.now) (header_of self.now.bytes.now).events) }
    {
        let codes = self.header.codes;
        let mut events = events_of(self.bytes, &self.header);
        events.position(|record| !Event::decode(record.bytes).is_lawful(codes))
    }

    /// 5: every code.
    fn check_codes(&self) -> Result<(), FileFault>
        ensures first { MatchResult result (λ _. CodesGood self.now.bytes.now) (First self.now.bytes.now) }
    {
        self.bad_code()
            .map_or(Ok(()), |place| Err(FileFault::Code { place }))
    }

    /// 6: every event.
    fn check_events(&self) -> Result<(), FileFault>
        requires codes { CodesGood self.now.bytes.now }
        ensures first { MatchResult result (λ _. EventsGood self.now.bytes.now) (First self.now.bytes.now) }
    {
        self.bad_event()
            .map_or(Ok(()), |place| Err(FileFault::Event { place }))
    }

    /// 7: that no event is earlier than the one before it. A loop, as it keeps the time of the event before: a search would
    /// decode each event twice. Not inlined into `open`, where the compiler would keep that time in memory and not in a register.
    #[inline(never)]
    fn check_times(&self) -> Result<(), FileFault>
        requires codes { CodesGood self.now.bytes.now }
        requires events { EventsGood self.now.bytes.now }
        ensures first { MatchResult result (λ _. TimesGood self.now.bytes.now) (First self.now.bytes.now) }
    {
        let mut latest = 0;
        for record in events_of(self.bytes, &self.header) {
            let place = record.place;
            let event = Event::decode(record.bytes);
            if event.time < latest {
                return Err(FileFault::Time { place });
            }
            latest = event.time;
        }
        Ok(())
    }

    /// Rules 5 to 7, in their order.
    pub(crate) fn check_records(&self) -> Result<(), FileFault>
        ensures first { MatchResult result (λ _. WellFormed self.now.bytes.now) (First self.now.bytes.now) }
    {
        self.check_codes()?;
        self.check_events()?;
        self.check_times()
    }
}
