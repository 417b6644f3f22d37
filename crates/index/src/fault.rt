//! Why an index refuses.

ghost use Rattle.std.specs.Prelude.{◌≡◌, Some};
ghost use Rattle.index.specs.Refusals.{refusal_of, fault_reason, place_unit, fault_text};

use crate::Refused;
use scheme::EventNo;
use std::error::Error;
use std::fmt;

/// A refusal of an index.
#[derive(Clone, Copy, Debug, PartialEq, Eq)]
pub enum IndexFault {
    /// 8: no events, or more than 65,536.
    EventCount { n: u32 },
    /// 9: the table has fewer cells than the scheme tells, or 2^40 are told.
    ShortTable { cells: u64 },
    /// 10: the run ends before it begins or past the last event, or there is no such event.
    OutOfRange { event: EventNo },
    /// 11: the trace has fewer places than the run has pieces.
    ShortTrace { pieces: u32 },
}

impl IndexFault {
    /// The number of the fault, 8 to 11.
    pub fn number(self) -> u32
        ensures number { result ≡ (refusal_of self).number }
    {
        match self {
            IndexFault::EventCount { .. } => 8,
            IndexFault::ShortTable { .. } => 9,
            IndexFault::OutOfRange { .. } => 10,
            IndexFault::ShortTrace { .. } => 11,
        }
    }

    /// The number that was at fault: of events, of cells told, of an event, or of pieces.
    pub fn place(self) -> u64
        ensures place { result ≡ (refusal_of self).place }
    {
        match self {
            IndexFault::EventCount { n } => u64::from(n),
            IndexFault::ShortTable { cells } => cells,
            IndexFault::OutOfRange { event } => u64::from(event.0),
            IndexFault::ShortTrace { pieces } => u64::from(pieces),
        }
    }

    // What is wrong, in words.
    fn reason(self) -> &'static str
        ensures value { result.now ≡ fault_reason self }
    {
        match self {
            IndexFault::EventCount { .. } => "number of events out of range",
            IndexFault::ShortTable { .. } => "table too short",
            IndexFault::OutOfRange { .. } => "out of range",
            IndexFault::ShortTrace { .. } => "trace too short",
        }
    }

    // What the place counts.
    fn unit(self) -> &'static str
        ensures value { result.now ≡ place_unit self }
    {
        match self {
            IndexFault::EventCount { .. } => "number",
            IndexFault::ShortTable { .. } => "cell",
            IndexFault::OutOfRange { .. } => "event",
            IndexFault::ShortTrace { .. } => "piece",
        }
    }
}

/// As `fault 9 (table too short) at cell 15`.
impl fmt::Display for IndexFault {
    ghost output = { λ f. Some (fault_text f) };

    fn fmt<W: fmt::Write>(&self, f: &mut fmt::Formatter<W>) -> fmt::Result {
        let number = self.number();
        let reason = self.reason();
        let unit = self.unit();
        let place = self.place();
        write!(f, "fault {number} ({reason}) at {unit} {place}")
    }
}

impl Error for IndexFault {}

/// The text of the fault.
impl<S> fmt::Display for Refused<S> {
    ghost output = { λ r. Some (fault_text r.fault) };

    fn fmt<W: fmt::Write>(&self, f: &mut fmt::Formatter<W>) -> fmt::Result {
        write!(f, "{}", self.fault)
    }
}

impl<S: fmt::Debug + Drop> Error for Refused<S> {}
