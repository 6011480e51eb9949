//! Runs of the top levels of modules and `BUILD` files, and calls of implementations.
//!
//! A run is that of linked code ([`machine::execute`]) over the operations of the language
//! ([`evaluator::World`]), in any place, for all files of which the codes are the code. It begins
//! as crate `evaluation` says and hands out the state after it with the work of its place, or its
//! fault; [`end_run`] freezes and names what a module hands on.
#![tactic(auto)]

mod beginning;
mod ending;
mod implementing;
mod setting;
mod top;

pub use ending::end_run;
pub use implementing::call_implementation;
pub use setting::{Setting, TopFile};
pub use top::{path_at, run_top};
