//! A session file that is accepted, and its records.

ghost use Rattle.std.specs.Prelude.{◌≡◌};
ghost use Rattle.std.specs.Coded.{Coded-set};
ghost use Rattle.records.specs.Fields.{header_of};
ghost use Rattle.records.specs.Reading.{Over, HandsOut};
ghost use Rattle.session.specs.Rules.{WellFormed};

use crate::sections::{codes_of, events_of};
use records::reader::Records;
use records::record::{CODE_LEN, Code, EVENT_LEN, Event, Header};

mod opening;

pub use opening::open;

/// An accepted file: its bytes, which stay where they are, and its header.
#[derive(Clone, Copy)]
pub struct SessionFile<'a> {
    bytes: &'a [u8],
    header: Header,
    ghost read: { header ≡ header_of bytes.now } by { Coded-set header-code header (header_of bytes.now) },
    ghost well_formed: { ∥ WellFormed bytes.now ∥₁ },
}

// Codes and events have a call each: the bodies are a line, and a call for both would be told the length of a record, where the
// header has its place and how it is decoded.
impl<'a> SessionFile<'a> {
    ghost use Rattle.session.specs.Opened.{code_from, event_from};

    /// What the header says.
    pub fn header(&self) -> Header
        ensures value { result ≡ self.now.header }
    {
        self.header
    }

    /// The codes, in their order, each as its part of the file.
    pub fn codes(&self) -> Records<'a, CODE_LEN>
        ensures reader { Over 8 self.now.bytes.now self.now.header.codes_at self.now.header.codes result }
        ensures order { HandsOut 8 result }
    {
        codes_of(self.bytes, &self.header)
    }

    /// The events, in their order, each as its part of the file.
    pub fn events(&self) -> Records<'a, EVENT_LEN>
        ensures reader { Over 16 self.now.bytes.now self.now.header.events_at self.now.header.events result }
        ensures order { HandsOut 16 result }
    {
        events_of(self.bytes, &self.header)
    }

    /// The code at a place, or none past the last.
    pub fn code_at(&self, place: usize) -> Option<Code>
        ensures value { result ≡ code_from self.now.bytes.now self.now.header place }
    {
        let record = self.codes().get(place);
        record.map(|record| Code::decode(record.bytes))
    }

    /// The event at a place, or none past the last.
    pub fn event_at(&self, place: usize) -> Option<Event>
        ensures value { result ≡ event_from self.now.bytes.now self.now.header place }
    {
        let record = self.events().get(place);
        record.map(|record| Event::decode(record.bytes))
    }
}
