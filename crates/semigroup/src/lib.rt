//! Elements with an associative operation, and their products.
//!
//! A product takes the elements in their order, left to right, and nothing but associativity is known of the operation:
//! it need not be commutative and need have no neutral element, so an empty slice has no product.

#![tactic(auto)]

ghost use Rattle.std.specs.Prelude.{◌≡◌};
ghost use Rattle.semigroup.specs.Product.{product};

/// A type with an associative operation.
pub trait Semigroup: Copy {
    /// The operation.
    ghost op: { Self → Self → Self };

    /// `self` and `right`, in this order, made into one.
    fn combine(self, right: Self) -> Self
        ensures combined { result ≡ op self right };

    ghost associative: { (a b c : Self) → op (op a b) c ≡ op a (op b c) };
}

/// The items combined left to right, or none if there are none.
pub fn product_of<T: Semigroup>(items: &[T]) -> Option<T>
    ensures value { result ≡ product T.Semigroup.op items.now }
{
    items
        .iter()
        .copied()
        .reduce(|left, right| left.combine(right))
}
