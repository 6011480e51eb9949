//! The language's whole numbers, which have 64 bits and a sign: arithmetic, order, indexes and
//! ranges.
//!
//! What each call gives is a definition over all whole numbers (`specs/`). Nothing here allocates.
#![tactic(auto)]

mod arithmetic;
pub mod laws;
mod order;
mod places;
mod ranges;

pub use arithmetic::{NumberError, difference, opposite, product, quotient, remainder, sum};
pub use order::{Comparison, compare};
pub use places::place;
pub use ranges::{RangeNumbers, range};
