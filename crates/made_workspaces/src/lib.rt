//! Workspaces for tests and benchmarks, each as the input that spells it.
//!
//! [`plain_targets`], [`layered_targets`], [`layered_modules`] and [`chained_modules`] are large,
//! [`looping_module`] goes round a loop, [`listing_module`] is frozen with many values;
//! [`random_workspace`] is small, and has whatever may go wrong. In each of them the label
//! `//top:all` reaches every target.
#![tactic(auto)]

mod large;
mod loops;
mod modules;
mod random;

pub use large::{layered_targets, plain_targets};
pub use loops::{listing_module, looping_module};
pub use modules::{chained_modules, layered_modules};
pub use random::random_workspace;
