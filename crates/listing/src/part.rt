//! Parts of a line.

ghost use Rattle.std.specs.Prelude.{◌≡◌, Some};
ghost use Rattle.listing.specs.Parts.{section_text, time_text, effect_text, participant_text, trade_text};

use records::record::{Effect, Event};
use std::fmt;

/// How many records a section has, and where it begins.
#[derive(Clone, Copy)]
pub struct Section {
    pub count: u32,
    pub at: u32,
}

/// As `3 at byte 20`.
impl fmt::Display for Section {
    ghost output = { λ s. Some (section_text s) };

    fn fmt<W: fmt::Write>(&self, f: &mut fmt::Formatter<W>) -> fmt::Result {
        let Section { count, at } = *self;
        write!(f, "{count} at byte {at}")
    }
}

/// A time of day, in milliseconds since midnight.
#[derive(Clone, Copy)]
pub struct TimeOfDay {
    pub millis: u32,
}

/// As `09:30:00.250`.
impl fmt::Display for TimeOfDay {
    ghost output = { λ t. Some (time_text t.millis) };

    fn fmt<W: fmt::Write>(&self, f: &mut fmt::Formatter<W>) -> fmt::Result {
        let hours = self.millis / 3_600_000;
        let minutes = self.millis / 60_000 % 60;
        let seconds = self.millis / 1_000 % 60;
        let millis = self.millis % 1_000;
        write!(f, "{hours:02}:{minutes:02}:{seconds:02}.{millis:03}")
    }
}

/// The word for an effect.
pub fn effect_word(effect: Option<Effect>) -> &'static str
    ensures value { result.now ≡ effect_text effect }
{
    match effect {
        Some(Effect::Nothing) => "none",
        Some(Effect::Halt) => "halt",
        Some(Effect::Resumption) => "resumption",
        None => "unknown",
    }
}

/// What a code does to trading, in a word.
#[derive(Clone, Copy)]
pub struct EffectWord {
    pub effect: Option<Effect>,
}

/// As `halt`.
impl fmt::Display for EffectWord {
    ghost output = { λ w. Some (effect_text w.effect) };

    fn fmt<W: fmt::Write>(&self, f: &mut fmt::Formatter<W>) -> fmt::Result {
        f.write_str(effect_word(self.effect))
    }
}

/// Who took part: a number, where 0 is nobody.
#[derive(Clone, Copy)]
pub struct Participant {
    pub number: u16,
}

/// As `7`, or `none`.
impl fmt::Display for Participant {
    ghost output = { λ p. Some (participant_text p.number) };

    fn fmt<W: fmt::Write>(&self, f: &mut fmt::Formatter<W>) -> fmt::Result {
        let number = self.number;
        if number == 0 {
            write!(f, "none")
        } else {
            write!(f, "{number}")
        }
    }
}

/// The price and the quantity of an event that has them.
#[derive(Clone, Copy)]
pub struct Trade {
    pub event: Event,
}

/// As `price 100 quantity 10`, or `no price`.
impl fmt::Display for Trade {
    ghost output = { λ t. Some (trade_text t.event) };

    fn fmt<W: fmt::Write>(&self, f: &mut fmt::Formatter<W>) -> fmt::Result {
        match self.event.trade() {
            Some(trade) => write!(f, "price {} quantity {}", trade.price, trade.quantity),
            None => write!(f, "no price"),
        }
    }
}
