//! The header, a code and an event, decoded from their bytes.

ghost use Rattle.std.specs.Prelude.{◌≡◌, Some, Decides};
ghost use Rattle.records.specs.Fields.{header_in, code_of, event_of, effect_or_unknown, unknown_effect_text, effect_number, trade_of};
ghost use Rattle.records.specs.Lawful.{LawfulCode, LawfulEvent};

use crate::array::array_at;
use std::error::Error;
use std::fmt;

/// The bytes of the header, at the start of the file.
pub const HEADER_LEN: usize = 20;
/// The bytes of a code.
pub const CODE_LEN: usize = 8;
/// The bytes of an event.
pub const EVENT_LEN: usize = 16;

/// The first 20 bytes of a file.
#[derive(Clone, Copy, Debug, PartialEq, Eq)]
pub struct Header {
    pub edition: u16,
    pub codes: u16,
    pub events: u32,
    pub codes_at: u32,
    pub events_at: u32,
    pub file_len: u32,
}

impl Header {
    /// The header of a file, or none where the file is too short to have one.
    pub fn decode(file: &[u8]) -> Option<Header>
        ensures fields { result ≡ header_in file.now }
    {
        if file.len() < HEADER_LEN {
            return None;
        }
        Some(Header {
            edition: u16::from_le_bytes(*array_at(file, 0)),
            codes: u16::from_le_bytes(*array_at(file, 2)),
            events: u32::from_le_bytes(*array_at(file, 4)),
            codes_at: u32::from_le_bytes(*array_at(file, 8)),
            events_at: u32::from_le_bytes(*array_at(file, 12)),
            file_len: u32::from_le_bytes(*array_at(file, 16)),
        })
    }
}

/// What the events of a code do to trading.
#[derive(Clone, Copy, Debug, PartialEq, Eq)]
pub enum Effect {
    Nothing,
    Halt,
    Resumption,
}

/// A number that stands for no effect.
#[derive(Clone, Copy, Debug, PartialEq, Eq)]
pub struct UnknownEffect {
    pub number: u8,
}

impl fmt::Display for UnknownEffect {
    ghost output = { λ e. Some (unknown_effect_text e) };

    fn fmt<W: fmt::Write>(&self, f: &mut fmt::Formatter<W>) -> fmt::Result {
        write!(f, "no effect has the number {}", self.number)
    }
}

impl Error for UnknownEffect {}

/// The effect that a number stands for.
impl TryFrom<u8> for Effect {
    type Error = UnknownEffect;

    ghost try_from_gives = { λ n r. r ≡ effect_or_unknown n };

    fn try_from(number: u8) -> Result<Effect, UnknownEffect> {
        match number {
            0 => Ok(Effect::Nothing),
            1 => Ok(Effect::Halt),
            2 => Ok(Effect::Resumption),
            _ => Err(UnknownEffect { number }),
        }
    }
}

/// The number that stands for an effect.
impl From<Effect> for u8 {
    ghost from_gives = { λ e n. n ≡ effect_number e };

    fn from(effect: Effect) -> u8 {
        match effect {
            Effect::Nothing => 0,
            Effect::Halt => 1,
            Effect::Resumption => 2,
        }
    }
}

/// What an event may be: a map of phases, an effect and a factor.
#[derive(Clone, Copy, Debug, PartialEq, Eq)]
pub struct Code {
    /// 24 bits: bits 3q to 3q + 2 are the phase reached from phase q.
    pub phase_map: u32,
    /// None where the number stands for no effect; such a code is bad.
    pub effect: Option<Effect>,
    pub factor: u16,
    /// 0 in a lawful code.
    pub reserved: u16,
}

impl Code {
    pub fn decode(bytes: &[u8; CODE_LEN]) -> Code
        ensures fields { result ≡ code_of bytes.now }
    {
        let [low, middle, high, effect, ..] = *bytes;
        Code {
            phase_map: u32::from_le_bytes([low, middle, high, 0]),
            effect: Effect::try_from(effect).ok(),
            factor: u16::from_le_bytes(*array_at(bytes, 4)),
            reserved: u16::from_le_bytes(*array_at(bytes, 6)),
        }
    }

    pub fn is_lawful(&self) -> bool
        ensures lawful { Decides result (LawfulCode self.now) }
    {
        self.effect.is_some() && self.factor <= 65_520 && self.reserved == 0
    }
}

/// The price and the quantity of an event that has them.
#[derive(Clone, Copy, Debug, PartialEq, Eq)]
pub struct Trade {
    pub price: i32,
    pub quantity: u32,
}

/// One line of the day.
#[derive(Clone, Copy, Debug, PartialEq, Eq)]
pub struct Event {
    /// Milliseconds since midnight.
    pub time: u32,
    /// The number of its code.
    pub code: u8,
    /// 1 where the event has a price, else 0. It stands here as in the file, beside what it speaks of, since an event is
    /// decoded before it is judged: another flag, or a price beside flag 0, is to be refused. `trade` reads the three as one.
    pub price_flag: u8,
    /// 0 for none.
    pub participant: u16,
    pub price: i32,
    pub quantity: u32,
}

impl Event {
    pub fn decode(bytes: &[u8; EVENT_LEN]) -> Event
        ensures fields { result ≡ event_of bytes.now }
    {
        Event {
            time: u32::from_le_bytes(*array_at(bytes, 0)),
            code: bytes[4],
            price_flag: bytes[5],
            participant: u16::from_le_bytes(*array_at(bytes, 6)),
            price: i32::from_le_bytes(*array_at(bytes, 8)),
            quantity: u32::from_le_bytes(*array_at(bytes, 12)),
        }
    }

    /// The price and the quantity, where the flag says that there are any.
    pub fn trade(&self) -> Option<Trade>
        ensures value { result ≡ trade_of self.now }
    {
        (self.price_flag == 1).then_some(Trade {
            price: self.price,
            quantity: self.quantity,
        })
    }

    /// Whether the event is lawful in a file of so many codes.
    pub fn is_lawful(&self, codes: u16) -> bool
        ensures lawful { Decides result (LawfulEvent codes self.now) }
    {
        self.time <= 86_399_999
            && u16::from(self.code) < codes
            && (self.price_flag == 1
                || self.price_flag == 0 && self.price == 0 && self.quantity == 0)
    }
}
