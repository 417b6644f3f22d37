//! Records of one length, handed out as parts of the file, each with its place.

ghost use Rattle.std.specs.Prelude.{◌+◌, ◌*◌, ◌≤◌, length};

pub mod reading;

/// A record: its bytes, which are a part of the file, and its place among the records, from 0.
#[derive(Clone, Copy)]
pub struct Record<'a, const LEN: usize> {
    pub bytes: &'a [u8; LEN],
    pub place: usize,
}

/// The records of `LEN` bytes that stand one after the other from `start` on: those from `at` on are still to come.
/// Numbers and no range of places, since a reader is copied and a `Range` is not.
#[derive(Clone, Copy)]
pub struct Records<'a, const LEN: usize> {
    file: &'a [u8],
    start: usize,
    count: usize,
    at: usize,
    ghost within: { start + LEN * count ≤ length file.now },
    ghost reached: { at ≤ count },
}
