//! The order of whole numbers.
ghost use Rattle.std.specs.Prelude.{◌≡◌};
ghost use Rattle.numbers.specs.Order.{order_of, passes};

use std::cmp::Ordering;

/// An operator that compares.
#[derive(Clone, Copy, PartialEq, Eq, Debug)]
pub enum Comparison {
    /// `<`
    Below,
    /// `<=`
    AtMost,
    /// `>`
    Above,
    /// `>=`
    AtLeast,
}

impl Comparison {
    /// Whether an order is what the operator asks for.
    pub fn holds(self, order: Ordering) -> bool
        ensures { result ≡ passes self order }
    {
        match self {
            Comparison::Below => order == Ordering::Less,
            Comparison::AtMost => order != Ordering::Greater,
            Comparison::Above => order == Ordering::Greater,
            Comparison::AtLeast => order != Ordering::Less,
        }
    }
}

/// How two numbers stand to one another.
pub fn compare(a: i64, b: i64) -> Ordering
    ensures { result ≡ order_of a b }
{
    a.cmp(&b)
}
