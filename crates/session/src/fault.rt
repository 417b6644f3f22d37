//! Why a file is refused: the rule that it breaks, and where.

ghost use Rattle.std.specs.Prelude.{◌≡◌, Some};
ghost use Rattle.session.specs.Faults.{fault_number, fault_place, fault_cause, fault_text, place_unit};

use std::error::Error;
use std::fmt;

/// The rules that a file can break, in the order in which they are checked.
#[derive(Clone, Copy, Debug, PartialEq, Eq)]
pub enum FileFault {
    /// The file has under 20 bytes, or its length field is not its length.
    Length { len: usize },
    /// The edition is not 1.
    Edition,
    /// The count that stands at this byte is out of range.
    Count { byte: usize },
    /// A section begins within the header or ends past the file, or the two overlap.
    Sections,
    /// The code at this place is bad, and none before it is.
    Code { place: usize },
    /// The event at this place is bad, and none before it is.
    Event { place: usize },
    /// The event at this place is earlier than the one before it, and no event before it is.
    Time { place: usize },
}

impl FileFault {
    /// The number of the rule.
    pub fn number(&self) -> u32
        ensures value { result ≡ fault_number self.now }
    {
        match *self {
            FileFault::Length { .. } => 1,
            FileFault::Edition => 2,
            FileFault::Count { .. } => 3,
            FileFault::Sections => 4,
            FileFault::Code { .. } => 5,
            FileFault::Event { .. } => 6,
            FileFault::Time { .. } => 7,
        }
    }

    /// Where the rule is broken: a length, a byte, a code or an event.
    pub fn place(&self) -> usize
        ensures value { result ≡ fault_place self.now }
    {
        match *self {
            FileFault::Length { len } => len,
            FileFault::Edition => 0,
            FileFault::Count { byte } => byte,
            FileFault::Sections => 8,
            FileFault::Code { place } | FileFault::Event { place } | FileFault::Time { place } =>
                place,
        }
    }

    /// What is wrong, in words.
    fn cause(&self) -> &'static str
        ensures value { result.now ≡ fault_cause self.now }
    {
        match *self {
            FileFault::Length { .. } => "bad length",
            FileFault::Edition => "bad edition",
            FileFault::Count { .. } => "count out of range",
            FileFault::Sections => "misplaced section",
            FileFault::Code { .. } => "bad code",
            FileFault::Event { .. } => "bad event",
            FileFault::Time { .. } => "time falls",
        }
    }

    /// What the place counts.
    fn unit(&self) -> &'static str
        ensures value { result.now ≡ place_unit self.now }
    {
        match *self {
            FileFault::Length { .. } => "length",
            FileFault::Edition | FileFault::Count { .. } | FileFault::Sections => "byte",
            FileFault::Code { .. } => "code",
            FileFault::Event { .. } | FileFault::Time { .. } => "event",
        }
    }
}

/// As `fault 5 (bad code) at code 2`.
impl fmt::Display for FileFault {
    ghost output = { λ f. Some (fault_text f) };

    fn fmt<W: fmt::Write>(&self, f: &mut fmt::Formatter<W>) -> fmt::Result {
        let number = self.number();
        let cause = self.cause();
        let unit = self.unit();
        let place = self.place();
        write!(f, "fault {number} ({cause}) at {unit} {place}")
    }
}

impl Error for FileFault {}
