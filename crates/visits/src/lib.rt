//! Visits of values: equality and freezing.
//!
//! Both look at a value wherever it lies, in the heap, in a frozen value or as a key, and take it
//! as it lies: nothing is shared or copied to look. Each value that is visited costs a tick.
//! Equality gives a bool (`equals`), and freezing the tree of a value (`freezes`): what is frozen
//! already is visited again, and then shared by a count (`revisit`).
//!
//! `specs/` says what each call gives.
#![tactic(auto)]

mod equals;
mod freezes;
mod laws;
mod revisit;

pub use equals::equal;
pub use freezes::freeze;
pub use laws::frozen_values_freeze_to_themselves;
