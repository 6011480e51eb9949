//! What only a module has, and what only a `BUILD` file has: the places of evaluations of files.
//!
//! A module declares providers, rules and attributes, and a `BUILD` file targets, by calls of
//! rules. `specs/ModulePlace` and `specs/BuildPlace` make of these the records over which the
//! language has its meaning (`language`); [`ModulePlace`] and [`BuildPlace`] are the places
//! ([`language::Place`]) that have these.
#![tactic(auto)]

mod build_place;
mod methods;
mod module_place;

pub use build_place::{BuildPlace, Rules};
pub use module_place::ModulePlace;
