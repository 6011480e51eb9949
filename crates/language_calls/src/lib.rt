//! The operations of the language that stand between the calls of `state` and the record of crate
//! `language`: the jump on an operator, what each file finds bound, and which values are asked of
//! their place.
//!
//! Each call does what its definition says, for every state, or answers that memory was refused.
#![tactic(auto)]

mod bound;
mod operators;
mod placed;

pub use bound::predeclared;
pub use operators::binary;
pub use placed::{leaf_of, of_place, target_of};
