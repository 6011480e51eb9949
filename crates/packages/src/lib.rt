//! The packages of a workspace: what each `BUILD` file declares, which files fail, what a label
//! names, and what targets depend on.
//!
//! [`Targets`] evaluates each `BUILD` file once. `specs/Packages` says what a package has.
#![tactic(auto)]

mod all_targets;
mod building;
mod faults;
mod kept;
pub mod laws;
mod resolved;
mod shares;

pub use all_targets::Targets;
pub use resolved::Named;
