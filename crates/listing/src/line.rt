//! Whole lines.

ghost use Rattle.std.specs.Prelude.{Some};
ghost use Rattle.listing.specs.Lines.{header_text, event_text};

use crate::part::{EffectWord, Participant, Section, TimeOfDay, Trade};
use records::record::{Effect, Event, Header};
use std::fmt;

/// The header in one line.
#[derive(Clone, Copy)]
pub struct HeaderLine {
    pub header: Header,
}

/// As `edition 1, codes 3 at byte 20, events 5 at byte 44, length 124`.
impl fmt::Display for HeaderLine {
    ghost output = { λ l. Some (header_text l.header) };

    fn fmt<W: fmt::Write>(&self, f: &mut fmt::Formatter<W>) -> fmt::Result {
        let Header {
            edition,
            codes,
            events,
            codes_at,
            events_at,
            file_len,
        } = self.header;
        let codes = Section {
            count: u32::from(codes),
            at: codes_at,
        };
        let events = Section {
            count: events,
            at: events_at,
        };
        write!(
            f,
            "edition {edition}, codes {codes}, events {events}, length {file_len}"
        )
    }
}

/// An event in one line, with its number and the effect of its code.
#[derive(Clone, Copy)]
pub struct EventLine {
    pub number: usize,
    pub event: Event,
    pub effect: Option<Effect>,
}

/// As `0 00:00:01.000 code 0 (none) participant 7 price 100 quantity 10`.
impl fmt::Display for EventLine {
    ghost output = { λ l. Some (event_text l) };

    fn fmt<W: fmt::Write>(&self, f: &mut fmt::Formatter<W>) -> fmt::Result {
        let EventLine {
            number,
            event,
            effect,
        } = *self;
        let time = TimeOfDay { millis: event.time };
        let code = event.code;
        let effect = EffectWord { effect };
        let participant = Participant {
            number: event.participant,
        };
        let trade = Trade { event };
        write!(
            f,
            "{number} {time} code {code} ({effect}) participant {participant} {trade}"
        )
    }
}
