//! Loading: each module of a workspace evaluated once, after all that stand lower along `load`.
#![tactic(auto)]

mod evaluate;
mod faults;
mod found;
mod known;
pub mod laws;
mod load;
mod loaded;
mod one;
mod sorting;

pub use evaluate::Evaluate;
pub use known::Known;
pub use loaded::{Modules, load_all};
pub use sorting::FileFault;
