//! A caller of an index, proved from the index's contracts alone.

ghost use Rattle.std.specs.Prelude.{◌≡◌, ◌&&◌, length, take, if◌then◌else◌, None, nat_le, slice_set};
ghost use Rattle.semigroup.specs.Product.{over};

use basic_schemes::flat::Flat;
use index::Draft;
use scheme::{EventNo, Piece, Scheme};
use semigroup::Semigroup;

/// The product of three items once the middle one is replaced; none if the table or the trace is too short.
pub fn with_middle<T: Semigroup>(table: &mut [T], middle: T, trace: &mut [Piece]) -> Option<T>
    ensures value { result ≡ (if nat_le 6 (length table.old) && nat_le 1 (length trace.old) then over T.Semigroup.op (slice_set (take 3 table.old) 1 middle) 0 3 else None) }
{
    let draft = Draft::new(Flat, 3).ok()?;
    let built = draft.build(table).ok()?;
    built.update(table, EventNo(1), middle).ok()?;
    let answer = built.query(table, EventNo(0), EventNo(2), trace).ok()?;
    Some(answer.value)
}
