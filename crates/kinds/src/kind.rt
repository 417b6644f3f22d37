//! What a kind of element adds to its operation.

ghost use Rattle.std.specs.Prelude.{◌≡◌, ℕ, List, map, IfOk, Some};
ghost use Rattle.semigroup.specs.Product.{product, run, over};
ghost use Rattle.decimal.specs.Put.{placed, placed_end};
ghost use Rattle.kinds.specs.declared.kind.Entry.{Entry};

use records::record::{Code, Event};
use semigroup::Semigroup;
use std::alloc::{AllocError, Global};
use std::fmt;
use std::str::from_utf8;

/// An event with its number and the record of its code.
#[derive(Clone, Copy, Debug, PartialEq, Eq)]
pub struct Entry {
    pub number: u16,
    pub event: Event,
    pub code: Code,
}

/// A kind of element that a script can ask for.
pub trait Kind: Semigroup + From<Entry> {
    /// The letter of the kind's questions.
    const LETTER: char;

    /// The letter's code, which clauses speak of: each kind's letter is proved to have it.
    ghost LETTER: { ℕ };

    /// The element that an event gives.
    ghost element: { Entry → Self };

    /// What the product of a run's elements says of the run, in words of the run's events.
    ghost Means: { List Entry → Self → Type 0 };

    /// The text of an answer.
    ghost text: { Self → List ℕ };

    /// Writes the text of an answer from `at` on and answers the place after it, or writes nothing if it does not fit.
    fn put_answer(self, out: &mut [u8], at: usize) -> Option<usize>
        ensures end { result ≡ placed_end out.old at (text self) }
        ensures written { out.new ≡ placed out.old at (text self) };

    /// What is made of an entry is its element.
    ghost made: { (e : Entry) (m : Self) → Self.from_gives e m → m ≡ element e };

    /// The product of a run's elements, if the run is not empty, says it.
    ghost meaning: { (es : List Entry) (m : Self) → product Self.Semigroup.op (map element es) ≡ Some m → Means es m };
}

/// The elements of the entries, in their order. Whatever run of them has a product, the product says of the run's
/// entries what the kind's `Means` says.
pub fn elements_of<K: Kind>(heap: Global, entries: &[Entry]) -> Result<Vec<K>, AllocError>
    ensures elements { IfOk result (λ v. v.items ≡ map K.Kind.element entries.now) }
    ensures meaning { IfOk result (λ v. (i j : ℕ) (m : K) → over K.Semigroup.op v.items i j ≡ Some m → K.Kind.Means (run entries.now i j) m) }
{
    entries.iter().map(|entry| K::from(*entry)).collect(heap)
}

/// Room enough for the text of an answer of any kind.
const ANSWER_ROOM: usize = 32;

/// An answer, displayed as its kind writes it.
#[derive(Clone, Copy)]
pub struct AnswerText<K>(pub K);

#[tactic(auto, using(decimal::proofs::Reading::read_back))]
impl<K: Kind> fmt::Display for AnswerText<K> {
    ghost output = { λ a. Some (K.Kind.text a.0) };

    fn fmt<W: fmt::Write>(&self, f: &mut fmt::Formatter<W>) -> fmt::Result {
        let mut room = [0; ANSWER_ROOM];
        let end = self.0.put_answer(&mut room, 0).ok_or(fmt::Error)?;
        let text = room.get(..end).ok_or(fmt::Error)?;
        f.write_str(from_utf8(text).map_err(|_| fmt::Error)?)
    }
}
