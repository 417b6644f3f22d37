//! The two sections of a file, where its header tells them. (A `u32` is no `usize` by `From`; `as` loses nothing here.)

ghost use Rattle.records.specs.Reading.{Over, HandsOut};

use records::reader::Records;
use records::record::{CODE_LEN, EVENT_LEN, Header};

/// The codes, in their order, each as its part of the file.
pub(crate) fn codes_of<'a>(bytes: &'a [u8], header: &Header) -> Records<'a, CODE_LEN>
    ensures reader { Over 8 bytes.now header.now.codes_at header.now.codes result }
    ensures order { HandsOut 8 result }
{
    Records::over(bytes, header.codes_at as usize, usize::from(header.codes))
}

/// The events, in their order, each as its part of the file.
pub(crate) fn events_of<'a>(bytes: &'a [u8], header: &Header) -> Records<'a, EVENT_LEN>
    ensures reader { Over 16 bytes.now header.now.events_at header.now.events result }
    ensures order { HandsOut 16 result }
{
    Records::over(bytes, header.events_at as usize, header.events as usize)
}
