//! Numbers in decimal, written as ASCII into lent bytes.
//!
//! `put` writes a text from a place on and answers the place after it. A text that does not fit is not written at all:
//! the answer is then none, and the bytes are as they were.
//!
//! The digits are written by hand: std's `Display` could serve only if a clause of std said when writing succeeds.

#![tactic(auto)]

ghost use Rattle.std.specs.Prelude.{◌≡◌, ℕ, ◌+◌, ◌≤◌, List, ◌++◌, length, decimal, nat_le, if◌then◌else◌};
ghost use Rattle.std.specs.Fmt.{signed_decimal};
ghost use Rattle.decimal.specs.Put.{put, placed, placed_end, end_in};

/// What has a text.
pub trait Text {
    /// The bytes of the text.
    ghost text: { Self → List ℕ };

    /// The place after the text, from `at` on in `room` bytes, or none if it does not fit.
    fn end(&self, room: usize, at: usize) -> Option<usize>
        ensures place { result ≡ end_in room at (text self.now) };

    /// Writes the text from `at` on and answers the place after it, or writes nothing if it does not fit.
    fn put(&self, out: &mut [u8], at: usize) -> Option<usize>
        ensures end { result ≡ placed_end out.old at (text self.now) }
        ensures written { out.new ≡ placed out.old at (text self.now) };
}

/// A text as it is.
#[tactic(auto, unfolding(crate::specs::Put::placed, crate::specs::Put::placed_end, crate::specs::Put::end_in))]
impl Text for &[u8] {
    ghost text = { λ s. s.now };

    fn end(&self, room: usize, at: usize) -> Option<usize> {
        end_of(room, at, self.len())
    }

    fn put(&self, out: &mut [u8], at: usize) -> Option<usize> {
        let end = self.end(out.len(), at)?;
        out[at..end].copy_from_slice(self);
        Some(end)
    }
}

/// A text as it is.
impl Text for &str {
    ghost text = { λ s. s.now };

    fn end(&self, room: usize, at: usize) -> Option<usize> {
        self.as_bytes().end(room, at)
    }

    fn put(&self, out: &mut [u8], at: usize) -> Option<usize> {
        self.as_bytes().put(out, at)
    }
}

/// A number without leading zeros.
#[tactic(auto, unfolding(crate::specs::Put::placed, crate::specs::Put::placed_end, crate::specs::Put::end_in))]
impl Text for u32 {
    ghost text = { decimal };

    fn end(&self, room: usize, at: usize) -> Option<usize> {
        end_of(room, at, number_len(*self))
    }

    fn put(&self, out: &mut [u8], at: usize) -> Option<usize> {
        let end = self.end(out.len(), at)?;
        write_digits(&mut out[at..end], *self);
        Some(end)
    }
}

/// A number, with a sign if it is below 0.
impl Text for i32 {
    ghost text = { signed_decimal };

    fn end(&self, room: usize, at: usize) -> Option<usize> {
        let digits = self.unsigned_abs();
        if *self < 0 {
            ("-", digits).end(room, at)
        } else {
            digits.end(room, at)
        }
    }

    fn put(&self, out: &mut [u8], at: usize) -> Option<usize> {
        let digits = self.unsigned_abs();
        if *self < 0 {
            ("-", digits).put(out, at)
        } else {
            digits.put(out, at)
        }
    }
}

/// One text after another.
#[tactic(auto, unfolding(crate::specs::Put::placed, crate::specs::Put::placed_end, crate::specs::Put::end_in))]
impl<A: Text, B: Text> Text for (A, B) {
    ghost text = { λ p. A.text p.0 ++ B.text p.1 };

    fn end(&self, room: usize, at: usize) -> Option<usize> {
        let next = self.0.end(room, at)?;
        self.1.end(room, next)
    }

    fn put(&self, out: &mut [u8], at: usize) -> Option<usize> {
        self.end(out.len(), at)?;
        let next = self.0.put(out, at)?;
        self.1.put(out, next)
    }
}

/// The place after `len` bytes, from `at` on in `room` bytes, if so many fit.
fn end_of(room: usize, at: usize, len: usize) -> Option<usize>
    ensures { result ≡ (if nat_le (at + len) room then Some (at + len) else None) }
{
    at.checked_add(len).filter(|end| *end <= room)
}

/// How many digits a number has.
#[tactic(auto, using(crate::proofs::Digits::length_zero, crate::proofs::Digits::length_power))]
fn number_len(n: u32) -> usize
    ensures { result ≡ length (decimal n) }
{
    n.checked_ilog10().map_or(1, |k| k as usize + 1)
}

/// Fills a place with the digits of a number, of which there are just so many.
#[tactic(auto, using(std::proofs::lemmas::Fmt::decimal_nonempty, crate::proofs::Digits::length_step, crate::proofs::Digits::only_digit, crate::proofs::Digits::last_digit))]
fn write_digits(place: &mut [u8], n: u32)
    requires { length place.old ≡ length (decimal n) }
    ensures { place.new ≡ decimal n }
{
    let last = place.len() - 1;
    place[last] = b'0' + (n % 10) as u8;
    if n >= 10 {
        write_digits(&mut place[..last], n / 10);
    }
}
