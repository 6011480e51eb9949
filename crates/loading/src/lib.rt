//! Loading: what the modules and BUILD files of a workspace come to, along their `load` statements.
//!
//! The definitions stand in `specs/`, over any reading of texts and any evaluation: `Loads` says
//! when a `load` statement fails, and `Modules` what each file comes to. [`laws`] says what they
//! mean.
#![tactic(auto)]

mod faults;
pub mod laws;
mod reads;

pub use faults::{Ending, LoadFaultKind, Placed};
pub use reads::{FileRead, LoadStatement};
