//! The call of a rule, which declares a target.
//!
//! `targets` says what the call of a rule declares or refuses; [`declare_target`] does so, for
//! every state of the evaluation, and [`call_rule`] keeps the target too. The targets that a
//! package has declared stand in [`PackageTargets`], where each is found by its name.
#![tactic(auto)]

mod by_name;
mod calling;
mod fitting;
mod here;
mod lists;
mod name_key;
mod reading;
mod repeats;
mod typing;

pub use by_name::{Name, PackageTargets};
pub use calling::{call_rule, declare_target};
