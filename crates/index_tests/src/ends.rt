//! Elements whose product shows the order in which they were combined.

ghost use Rattle.index_tests.specs.Spans.{spanned};
ghost use Rattle.std.proofs.Common.{rules};

use semigroup::Semigroup;

/// The first and the last of some labels.
#[derive(Clone, Copy, Debug, PartialEq, Eq)]
pub struct Ends {
    pub first: u32,
    pub last: u32,
}

impl Semigroup for Ends {
    ghost op = { spanned };

    ghost associative = { Prim.search rules };

    fn combine(self, right: Ends) -> Ends {
        Ends {
            first: self.first,
            last: right.last,
        }
    }
}
