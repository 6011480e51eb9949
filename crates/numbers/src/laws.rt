//! What division means. These functions do nothing; their contracts hold of all numbers.
ghost use Rattle.std.specs.Prelude.{ℤ};
ghost use Rattle.numbers.specs.Division.{Divided, DividedOnce};

/// The quotient times the divisor and the rest make the number, and the rest has the divisor's sign
/// and is smaller.
pub fn quotient_and_rest_make_the_number()
    ensures { (a b : ℤ) → Divided a b }
{}

/// No other quotient and rest do.
pub fn no_other_quotient_and_rest_do()
    ensures { (a b : ℤ) → DividedOnce a b }
{}
